//! The component files of a project.

ghost use Rattle.std.specs.Prelude.{◌≡◌, ◌<◌, ◌≤◌, suc, true, List, ℕ, ℤ, length, map, All, MatchOption, IfOk, IfErr};
ghost use Rattle.std.specs.List.{AllZip};
ghost use Rattle.bk_dev.specs.B0.{IsB0Development};
ghost use Rattle.bk_dev.specs.Development.{IsRange, is_complete, is_implementing};
ghost use Rattle.bk_dev.specs.Facts.{IsDevelopment};
ghost use Rattle.bk_raw.specs.Errors.Faults.{number_of_fault};
ghost use Rattle.bk_raw.specs.Errors.Limits.{IsLowComponent};
ghost use Rattle.bk_raw.specs.Errors.Places.{byte_at};
ghost use Rattle.bk_statics.specs.Components.{kind_as};
ghost use Rattle.bk_statics.specs.Verdict.{verdict_of, accepted};
ghost use Rattle.bk_statics.specs.VerdictLaws.{MayStandAbove, IsRangeBelow};
ghost use Rattle.bk_sources.specs.Files.{IsShallowText, IsFaultOf as AreFilesAtFault};
ghost use Rattle.bk_front.specs.declared.project_file.LineKind.{LineKind as Kind};
ghost use Rattle.bk_front.specs.declared.refusal.Refusal.TheVariants.{Fault, Limit};
ghost use Rattle.bk_front.specs.Project.{Reads, ReadsIn, DeclaresFew, AreChained, IsLow, IsRefusalIn, IsRefusalOf};
ghost use Rattle.bk_front.specs.ProjectFile.{AreLines, IsChain, IsNameFor, IsRangeText, component_lines, kinds_of, is_range, max_in, range_of};
ghost use Rattle.bk_front.specs.Stages.{IsOfFew, IsReadOf, IsNextRefusal};

use crate::chain::may_stand_below;
use crate::project_file::{LineKind, ProjectLine};
use crate::range::max_in;
use crate::refusal::Refusal;
use bk_dev::{DEFAULT_MAX, Development};
use bk_elab::{level, passes_limit_of_names};
use bk_elab_terms::ElabFault;
use bk_form::Token;
use bk_io::Memory;
use bk_limits::MOST_COMPONENTS;
use bk_p_comp::component;
use bk_p_expr::SynFault;
use bk_raw::{FaultKind, RawComponent};
use bk_sources::{FileFault, cut};
use std::alloc::Global;

/// What a component file is read as.
#[derive(Drop)]
pub enum Read {
    Component(RawComponent),
    /// A component in which a tree is too high.
    High,
}

/// The development that the texts of a project's component files are read as, in the order of their lines, in the range that the
/// lines say.
///
/// Each fault and each limit is looked for in all of the files before the next one is: F1; F2 and limit 2; limit 3; F3; limit
/// 12; F5; limit 5. F6 to F14 are looked for in one component after another.
pub fn project(
    alloc: Global,
    lines: &[ProjectLine],
    texts: &[Vec<u8>],
) -> Result<Development, Refusal>
    requires lines { AreLines lines.now }
    requires texts { length texts.now ≡ length (component_lines lines.now) }
    ensures development { IfOk result (Reads lines.now (map (λ text. text.items) texts.now)) }
    ensures executable { IfOk result (λ dev. is_complete dev ≡ true → IsB0Development dev) }
    ensures refusal { IfErr result (IsRefusalOf lines.now (map (λ text. text.items) texts.now)) }
{
    let max = range_of(lines);
    let kinds = component_kinds(alloc, lines)?;
    in_range(alloc, max, &kinds, texts)
}

/// MAXINT that the lines say.
fn range_of(lines: &[ProjectLine]) -> i64
    requires { All (λ l. IsNameFor l.kind l.name) lines.now }
    ensures { result ≡ range_of lines.now }
{
    for line in lines {
        if let Some(max) = said_max(line) {
            return max;
        }
    }
    DEFAULT_MAX
}

/// MAXINT that a line says, if it is the one for the range.
fn said_max(line: &ProjectLine) -> Option<i64>
    ensures { MatchOption result (is_range line.now.kind ≡ true → IsRangeText line.now.name → ⊥)
        (λ max. (is_range line.now.kind ≡ true) × (max ≡ max_in line.now.name)) }
{
    if !line.kind.is_range() {
        return None;
    }
    max_in(line.name.as_bytes())
}

/// What the component files hold.
fn component_kinds(alloc: Global, lines: &[ProjectLine]) -> Result<Vec<LineKind>, Memory>
    ensures { IfOk result (λ kinds. kinds.items ≡ kinds_of lines.now) }
{
    let mut kinds = Vec::new(alloc);
    for line in lines {
        if line.kind.is_component() {
            kinds.push(line.kind)?;
        }
    }
    Ok(kinds)
}

/// The development that the texts of component files of these kinds are read as with this MAXINT.
fn in_range(
    alloc: Global,
    max: i64,
    kinds: &[LineKind],
    texts: &[Vec<u8>],
) -> Result<Development, Refusal>
    requires range { IsRange max }
    requires chain { IsChain kinds.now }
    requires countable { length texts.now ≤ MOST_COMPONENTS }
    requires long { length kinds.now ≡ length texts.now }
    ensures development { IfOk result (ReadsIn max kinds.now (map (λ text. text.items) texts.now)) }
    ensures executable { IfOk result (λ dev. is_complete dev ≡ true → IsB0Development dev) }
    ensures refusal { IfErr result (IsRefusalIn max kinds.now (map (λ text. text.items) texts.now)) }
{
    let components = all_components(alloc, texts)?;
    all_chained(kinds, texts, &components)?;
    all_few(alloc, kinds, texts, &components)?;
    all_levels(alloc, max, kinds, texts, &components)
}

/// The components that the files are written for.
fn all_components(alloc: Global, texts: &[Vec<u8>]) -> Result<Vec<RawComponent>, Refusal>
    requires countable { length texts.now ≤ MOST_COMPONENTS }
    ensures each { IfOk result (λ cs. AllZip IsLow (map (λ text. text.items) texts.now) cs.items) }
    ensures refusal { (top : ℤ) (kinds : List Kind) → IfErr result (IsRefusalIn top kinds (map (λ text. text.items) texts.now)) }
{
    let files = match cut(alloc, texts) {
        Ok(files) => files,
        Err(fault) => return Err(refusal_of(fault)),
    };
    let read = all_read(alloc, texts, &files)?;
    all_low(alloc, texts, read)
}

/// The same of a project's files, of which the first is its project file.
fn refusal_of(fault: FileFault) -> Refusal
    requires countable { IsOfFew fault }
    ensures { (top : ℤ) (kinds : List Kind) (texts : List (List ℕ)) → AreFilesAtFault texts fault → IsRefusalIn top kinds texts result }
{
    match fault {
        FileFault::Fault {
            number,
            file,
            place,
        } => with_number(number, file as usize, place),
        FileFault::Limit { number, file } => past_limit(number, file as usize),
        FileFault::Memory => Refusal::Memory,
    }
}

/// The fault of this kind in a component file, of which the first is 0 here.
fn at_fault(kind: FaultKind, file: usize, place: usize) -> Refusal
    requires { file < MOST_COMPONENTS }
    ensures { result ≡ Fault (number_of_fault kind) (suc file) place }
{
    with_number(kind.number(), file, place)
}

/// The fault with this number.
fn with_number(number: u8, file: usize, place: usize) -> Refusal
    requires { file < MOST_COMPONENTS }
    ensures { result ≡ Fault number (suc file) place }
{
    Refusal::Fault {
        number,
        file: file as u32 + 1,
        place,
    }
}

/// The limit with this number, passed by a component file, of which the first is 0 here.
fn past_limit(number: u8, file: usize) -> Refusal
    requires { file < MOST_COMPONENTS }
    ensures { result ≡ Limit number (suc file) }
{
    Refusal::Limit {
        number,
        file: file as u32 + 1,
    }
}

/// What each file is read as.
fn all_read(alloc: Global, texts: &[Vec<u8>], files: &[Vec<Token>]) -> Result<Vec<Read>, Refusal>
    requires countable { length texts.now ≤ MOST_COMPONENTS }
    requires shallow { AllZip IsShallowText (map (λ text. text.items) texts.now) (map (λ f. f.items) files.now) }
    ensures each { IfOk result (λ read. AllZip IsReadOf (map (λ text. text.items) texts.now) read.items) }
    ensures refusal { (top : ℤ) (kinds : List Kind) → IfErr result (IsRefusalIn top kinds (map (λ text. text.items) texts.now)) }
{
    let mut all = Vec::new(alloc);
    for (file, tokens) in files.iter().enumerate() {
        match component(alloc, tokens) {
            Ok(component) => all.push(Read::Component(component))?,
            Err(SynFault::High) => all.push(Read::High)?,
            Err(SynFault::At(place)) => {
                return Err(at_fault(
                    FaultKind::NoTree,
                    file,
                    byte_of(tokens, place, texts[file].len()),
                ));
            }
            Err(SynFault::Depth(_)) => return Err(past_limit(3, file)),
            Err(SynFault::Memory) => return Err(Refusal::Memory),
        }
    }
    Ok(all)
}

/// The byte at which the token starts before which so many stand, or the length of the text.
fn byte_of(tokens: &[Token], place: usize, length: usize) -> usize
    ensures { result ≡ byte_at length tokens.now place }
{
    match tokens.get(place) {
        Some(token) => token.start,
        None => length,
    }
}

/// The components, where none is too high.
fn all_low(alloc: Global, texts: &[Vec<u8>], read: Vec<Read>) -> Result<Vec<RawComponent>, Refusal>
    requires countable { length texts.now ≤ MOST_COMPONENTS }
    requires read { AllZip IsReadOf (map (λ text. text.items) texts.now) read.items }
    ensures each { IfOk result (λ cs. AllZip IsLow (map (λ text. text.items) texts.now) cs.items) }
    ensures refusal { (top : ℤ) (kinds : List Kind) → IfErr result (IsRefusalIn top kinds (map (λ text. text.items) texts.now)) }
{
    let mut components = Vec::new(alloc);
    for one in read {
        match one {
            Read::Component(component) => components.push(component)?,
            Read::High => return Err(past_limit(12, components.len())),
        }
    }
    Ok(components)
}

/// Looks for a component that may not stand where it does.
fn all_chained(
    kinds: &[LineKind],
    texts: &[Vec<u8>],
    components: &[RawComponent],
) -> Result<(), Refusal>
    requires countable { length texts.now ≤ MOST_COMPONENTS }
    requires long { length kinds.now ≡ length texts.now }
    requires each { AllZip IsLow (map (λ text. text.items) texts.now) components.now }
    ensures chained { IfOk result (λ _. AreChained kinds.now (map (λ text. text.items) texts.now) components.now) }
    ensures refusal { (top : ℤ) → IfErr result (IsRefusalIn top kinds.now (map (λ text. text.items) texts.now)) }
{
    let mut above = None;
    for (file, component) in components.iter().enumerate() {
        if !may_stand_below(above, kinds[file], component) {
            return Err(at_fault(FaultKind::WrongChain, file, component.name.at));
        }
        above = Some(component);
    }
    Ok(())
}

/// Looks for a component that declares too many names.
fn all_few(
    alloc: Global,
    kinds: &[LineKind],
    texts: &[Vec<u8>],
    components: &[RawComponent],
) -> Result<(), Refusal>
    requires countable { length texts.now ≤ MOST_COMPONENTS }
    requires chained { AreChained kinds.now (map (λ text. text.items) texts.now) components.now }
    ensures few { IfOk result (λ _. All DeclaresFew components.now) }
    ensures refusal { (top : ℤ) → IfErr result (IsRefusalIn top kinds.now (map (λ text. text.items) texts.now)) }
{
    for (file, component) in components.iter().enumerate() {
        if passes_limit_of_names(alloc, component)? {
            return Err(past_limit(5, file));
        }
    }
    Ok(())
}

/// The levels of all components with this MAXINT, or the first fault of one below the others.
fn all_levels(
    alloc: Global,
    max: i64,
    kinds: &[LineKind],
    texts: &[Vec<u8>],
    components: &[RawComponent],
) -> Result<Development, Refusal>
    requires range { IsRange max }
    requires chain { IsChain kinds.now }
    requires countable { length texts.now ≤ MOST_COMPONENTS }
    requires chained { AreChained kinds.now (map (λ text. text.items) texts.now) components.now }
    requires few { All DeclaresFew components.now }
    ensures development { IfOk result (ReadsIn max kinds.now (map (λ text. text.items) texts.now)) }
    ensures executable { IfOk result (λ dev. is_complete dev ≡ true → IsB0Development dev) }
    ensures refusal { IfErr result (IsRefusalIn max kinds.now (map (λ text. text.items) texts.now)) }
{
    let mut dev = next_level(alloc, max, None, 0, &components[0])?;
    for file in 1..components.len() {
        dev = next_level(alloc, max, Some(dev), file, &components[file])?;
    }
    Ok(dev)
}

/// The levels above with this component of a file as one level more, or its first fault.
fn next_level(
    alloc: Global,
    max: i64,
    above: Option<Development>,
    file: usize,
    component: &RawComponent,
) -> Result<Development, Refusal>
    requires above { MayStandAbove component.now.kind above }
    requires range { IsRangeBelow max above }
    requires few { DeclaresFew component.now }
    requires low { IsLowComponent component.now }
    requires file { file < MOST_COMPONENTS }
    ensures level { IfOk result (λ dev. verdict_of max above component.now ≡ accepted dev) }
    ensures development { IfOk result IsDevelopment }
    ensures executable { IfOk result (λ dev. is_complete dev ≡ true → IsB0Development dev) }
    ensures complete { IfOk result (λ dev. is_complete dev ≡ is_implementing (kind_as component.now.kind)) }
    ensures refusal { IfErr result (IsNextRefusal max above component.now file) }
{
    match level(alloc, max, component, above) {
        Ok(dev) => Ok(dev),
        Err(ElabFault::Fault { number, place }) => Err(with_number(number, file, place)),
        Err(ElabFault::Limit(number)) => Err(past_limit(number, file)),
        Err(ElabFault::Memory) => Err(Refusal::Memory),
    }
}
