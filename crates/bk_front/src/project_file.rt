//! The project file.

ghost use Rattle.std.specs.Prelude.{◌≡◌, ◌≢◌, ◌↔◌, ◌<◌, ◌∷◌, ◌++◌, [], List, ℕ, length, map, IsTrue, IfSome, MatchOption, IfOk, IfErr};
ghost use Rattle.std.specs.Str.{IsUtf8};
ghost use Rattle.bk_raw.specs.Errors.Faults.{number_of_fault};
ghost use Rattle.bk_front.specs.declared.project_file.LineKind.{LineKind};
ghost use Rattle.bk_front.specs.declared.project_file.LineKind.TheVariants.{Range};
ghost use Rattle.bk_front.specs.ProjectFile.{first_or, IsLine, word_of, IsNameFor, IsRangeText, is_component, is_range};
ghost use Rattle.bk_front.specs.ProjectFile.{AreLinesOf, IsRefusalOfLines, component_lines};
ghost use Rattle.bk_front.specs.declared.refusal.Refusal.TheVariants.{Fault};
ghost use Rattle.bk_front.specs.Stages.{may_follow, lacks_machine, last_after};
ghost use Rattle.bk_front.specs.Trims.{trim_front, trim_back};

use crate::range::max_in;
use crate::refusal::Refusal;
use bk_io::Text;
use bk_limits::MOST_COMPONENTS;
use bk_lines::{first_line, is_skipped};
use bk_raw::FaultKind;
use std::alloc::Global;

/// A line of a project file, which names a file or says the range.
#[derive(Drop)]
pub struct ProjectLine {
    pub kind: LineKind,
    /// The file's name; of the line for the range its digits.
    pub name: Text,
}

/// What the file of a line holds, or that the line says the range.
#[derive(Clone, Copy, PartialEq, Eq, Debug)]
pub enum LineKind {
    /// The range of whole numbers. Such a line names no file.
    Range,
    Machine,
    Refinement,
    Implementation,
    /// Proof scripts.
    Proofs,
}

impl LineKind {
    /// Whether such a line names the file of a component.
    pub fn is_component(self) -> bool
        ensures { result ≡ is_component self }
    {
        match self {
            LineKind::Machine | LineKind::Refinement | LineKind::Implementation => true,
            LineKind::Range | LineKind::Proofs => false,
        }
    }

    /// Whether such a line says the range.
    pub(crate) fn is_range(self) -> bool
        ensures { result ≡ is_range self }
    {
        matches!(self, LineKind::Range)
    }

    /// The word that such a line begins with.
    fn word(self) -> &'static [u8]
        ensures { result.now ≡ word_of self }
    {
        match self {
            LineKind::Range => b"range",
            LineKind::Machine => b"machine",
            LineKind::Refinement => b"refinement",
            LineKind::Implementation => b"implementation",
            LineKind::Proofs => b"proofs",
        }
    }
}

/// The lines of a project file.
///
/// F1 is looked for first, then F4, whose place is the number of a line from 1, then limit 4.
pub fn lines(alloc: Global, text: &[u8]) -> Result<Vec<ProjectLine>, Refusal>
    ensures lines { IfOk result (λ lines. AreLinesOf text.now lines.items) }
    ensures refusal { IfErr result (IsRefusalOfLines text.now) }
{
    if let Err(error) = str::from_utf8(text) {
        return Err(at_fault(FaultKind::NotUtf8, error.valid_up_to()));
    }
    let mut lines: Vec<ProjectLine> = Vec::new(alloc);
    let mut last = None;
    let mut rest = text;
    let mut number: usize = 1;
    while let Some((line, after)) = first_line(rest) {
        if is_skipped(line) {
            rest = after;
            number += 1;
            continue;
        }
        let Some((kind, name)) = kind_and_name(line) else {
            return Err(at_fault(FaultKind::WrongLine, number));
        };
        if !may_follow(last, kind) {
            return Err(at_fault(FaultKind::WrongLine, number));
        }
        lines.push(ProjectLine {
            kind,
            name: Text::from_bytes(Vec::from_slice(alloc, name)?),
        })?;
        last = last_after(last, kind);
        rest = after;
        number += 1;
    }
    if lacks_machine(last) {
        return Err(at_fault(FaultKind::WrongLine, number));
    }
    if component_count(&lines) > MOST_COMPONENTS {
        return Err(Refusal::Limit { number: 4, file: 0 });
    }
    Ok(lines)
}

/// The fault of this kind in the project file.
fn at_fault(kind: FaultKind, place: usize) -> Refusal
    ensures { result ≡ Fault (number_of_fault kind) 0 place }
{
    Refusal::Fault {
        number: kind.number(),
        file: 0,
        place,
    }
}

/// Whether a line of this kind may stand after others, of which this is the last that names no proof file.
fn may_follow(last: Option<LineKind>, kind: LineKind) -> bool
    ensures { result ≡ may_follow last kind }
{
    match (last, kind) {
        (_, LineKind::Proofs) => true,
        (None, LineKind::Range) => true,
        (None | Some(LineKind::Range), LineKind::Machine) => true,
        (Some(LineKind::Machine | LineKind::Refinement), LineKind::Refinement) => true,
        (Some(LineKind::Machine | LineKind::Refinement), LineKind::Implementation) => true,
        _ => false,
    }
}

/// Whether no machine is named so far, where this is the last of the lines that name no proof file.
fn lacks_machine(last: Option<LineKind>) -> bool
    ensures { result ≡ lacks_machine last }
{
    matches!(last, None | Some(LineKind::Range))
}

/// The last line that names no proof file, where one of this kind stands after the others.
fn last_after(last: Option<LineKind>, kind: LineKind) -> Option<LineKind>
    ensures { result ≡ last_after last kind }
{
    match kind {
        LineKind::Proofs => last,
        _ => Some(kind),
    }
}

/// How many of the lines are for component files.
fn component_count(lines: &[ProjectLine]) -> usize
    ensures { result ≡ length (component_lines lines.now) }
{
    let mut count: usize = 0;
    for line in lines {
        if line.kind.is_component() {
            count += 1;
        }
    }
    count
}

// What a line names, and the file's name or the digits.
#[tactic(auto, using(crate::proofs::ProjectFiles::no_kind))]
fn kind_and_name(line: &[u8]) -> Option<(LineKind, &[u8])>
    ensures line { MatchOption result ((kind : LineKind) (name : List ℕ) → IsLine (word_of kind) name line.now → IsNameFor kind name → ⊥)
        (λ p. IsLine (word_of p.0) p.1.now line.now) }
    ensures fits { IfSome result (λ p. IsNameFor p.0 p.1.now) }
{
    if let Some(digits) = range_in(line) {
        return Some((LineKind::Range, digits));
    }
    if let Some(name) = file_of(line, LineKind::Machine) {
        return Some((LineKind::Machine, name));
    }
    if let Some(name) = file_of(line, LineKind::Refinement) {
        return Some((LineKind::Refinement, name));
    }
    if let Some(name) = file_of(line, LineKind::Implementation) {
        return Some((LineKind::Implementation, name));
    }
    if let Some(name) = file_of(line, LineKind::Proofs) {
        return Some((LineKind::Proofs, name));
    }
    None
}

// The digits of a line that says a range.
#[tactic(auto, using(crate::proofs::ProjectFiles::no_range_line))]
fn range_in(line: &[u8]) -> Option<&[u8]>
    ensures { MatchOption result ((name : List ℕ) → IsLine (word_of Range) name line.now → IsRangeText name → ⊥)
        (λ name. IsLine (word_of Range) name.now line.now × IsRangeText name.now) }
{
    let digits = file_of(line, LineKind::Range)?;
    match max_in(digits) {
        Some(_) => Some(digits),
        None => None,
    }
}

// The file name of a line that names this.
fn file_of(line: &[u8], kind: LineKind) -> Option<&[u8]>
    ensures { MatchOption result ((name : List ℕ) → IsLine (word_of kind) name line.now → ⊥)
        (λ name. IsLine (word_of kind) name.now line.now) }
{
    file_name(line, kind.word())
}

// The file name of a line that begins with this word.
#[tactic(auto, using(crate::proofs::Trimming::is_line, crate::proofs::Trimming::no_word, crate::proofs::Trimming::no_space, crate::proofs::Trimming::no_text))]
fn file_name<'a>(line: &'a [u8], word: &[u8]) -> Option<&'a [u8]>
    ensures { MatchOption result ((name : List ℕ) → IsLine word.now name line.now → ⊥)
        (λ name. IsLine word.now name.now line.now) }
{
    let rest = behind(line, word)?;
    let name = trim_back(trim_front(rest));
    if !begins_with_space(rest) {
        return None;
    }
    if !is_text(name) {
        return None;
    }
    Some(name)
}

// What stands after the word in a line that begins with it.
#[tactic(auto, using(crate::proofs::Trimming::stands_behind, crate::proofs::Trimming::stands_nowhere))]
fn behind<'a>(line: &'a [u8], word: &[u8]) -> Option<&'a [u8]>
    ensures { MatchOption result ((rest : List ℕ) → line.now ≢ word.now ++ rest)
        (λ rest. line.now ≡ word.now ++ rest.now) }
{
    line.strip_prefix(word)
}

fn begins_with_space(text: &[u8]) -> bool
    ensures { IsTrue result ↔ (first_or 0 text.now ≡ 32) }
{
    !text.is_empty() && text[0] == b' '
}

// Whether it is UTF-8 and not empty.
fn is_text(name: &[u8]) -> bool
    ensures { IsTrue result ↔ ((0 < length name.now) × IsUtf8 name.now) }
{
    !name.is_empty() && std::str::from_utf8(name).is_ok()
}

// The text without the spaces that it begins with.
fn trim_front(text: &[u8]) -> &[u8]
    ensures { result.now ≡ trim_front text.now }
{
    let mut rest = text;
    while let [b' ', after @ ..] = rest {
        rest = after;
    }
    rest
}

// The text without the spaces that it ends with.
#[tactic(auto, using(crate::proofs::Trimming::back_step, crate::proofs::Trimming::back_done))]
fn trim_back(text: &[u8]) -> &[u8]
    ensures { result.now ≡ trim_back text.now }
{
    let mut rest = text;
    while let [before @ .., b' '] = rest {
        rest = before;
    }
    rest
}
