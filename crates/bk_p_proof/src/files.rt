//! Proof files.

ghost use Rattle.std.specs.Prelude.{◌≡◌, ◌≢◌, ◌↔◌, ◌<◌, ◌^◌, List, ℕ, false, length, map, All, IfOk, IfErr, IsTrue};
ghost use Rattle.std.specs.List.{AllZip, AllPairs, flat_map};
ghost use Rattle.std.specs.Str.{IsUtf8};
ghost use Rattle.bk_raw.specs.Trees.ScriptTree.{RawScript as WrittenScript};
ghost use Rattle.bk_raw.specs.Errors.Places.{byte_at};
ghost use Rattle.bk_raw.specs.Errors.Faults.{number_of_fault};
ghost use Rattle.bk_sources.specs.Files.{IsCut, IsShallowText};
ghost use Rattle.bk_p_proof.specs.Files.{AreScriptsOf, IsFaultOf, IsShort, IsWritten, names_of};
ghost use Rattle.bk_p_proof.specs.Kept.{AreScripts};
ghost use Rattle.bk_p_proof.specs.Unread.{before_sequences};
ghost use Rattle.bk_p_proof.specs.Stages.{IsKeptOf, IsLowAs, IsProofFileAs, IsUnwrittenAt};

use crate::differing::ScriptNames;
use crate::fault::ScriptFault;
use crate::held::Scripts;
use crate::reading::{FileScripts, SpellFault, file_scripts};
use crate::second::second_type;
use crate::unread::before_sequences;
use bk_form::Token;
use bk_io::Memory;
use bk_limits::MOST_RULES;
use bk_raw::{FaultKind, RawScript};
use bk_sources::cut;
use std::alloc::Global;

/// The scripts of proof files, in order. Files count from 0.
///
/// Each fault and each limit is looked for in all of the files before the next one is: F1; F2 and limit 2; limit 3; F3; limit
/// 12; limit 8; F6.
pub fn scripts(alloc: Global, texts: &[Vec<u8>]) -> Result<Scripts, ScriptFault>
    requires countable { length texts.now < 2 ^ 32 }
    ensures value { IfOk result (λ list. AreScriptsOf (map (λ text. text.items) texts.now) list) }
    ensures fault { IfErr result (IsFaultOf (map (λ text. text.items) texts.now)) }
{
    let files = cut(alloc, texts)?;
    let read = all_read(alloc, texts, &files)?;
    all_low(texts, &read)?;
    all_short(texts, &read)?;
    all_differ(alloc, texts, &read)?;
    let all = joined(alloc, read)?;
    Ok(Scripts::of_texts(all))
}

/// The fault of this kind.
fn fault(kind: FaultKind, file: usize, place: usize) -> ScriptFault
    requires { file < 2 ^ 32 }
    ensures { result ≡ ScriptFault.Fault (number_of_fault kind) file place }
{
    let file = file as u32;
    ScriptFault::Fault {
        number: kind.number(),
        file,
        place,
    }
}

/// The limit with this number.
fn limit(number: u8, file: usize) -> ScriptFault
    requires { file < 2 ^ 32 }
    ensures { result ≡ ScriptFault.Limit number file }
{
    let file = file as u32;
    ScriptFault::Limit { number, file }
}

/// What each file is read as.
fn all_read(
    alloc: Global,
    texts: &[Vec<u8>],
    files: &[Vec<Token>],
) -> Result<Vec<FileScripts>, ScriptFault>
    requires countable { length texts.now < 2 ^ 32 }
    requires shallow { AllZip IsShallowText (map (λ text. text.items) texts.now) (map (λ f. f.items) files.now) }
    ensures ok { IfOk result (λ read. AllZip IsKeptOf (map (λ text. text.items) texts.now) read.items) }
    ensures fault { IfErr result (IsFaultOf (map (λ text. text.items) texts.now)) }
{
    let mut all = Vec::new(alloc);
    for (file, tokens) in files.iter().enumerate() {
        match one_read(alloc, tokens, texts[file].len()) {
            Ok(read) => all.push(read)?,
            Err(SpellFault::At(place)) => return Err(fault(FaultKind::NoTree, file, place)),
            Err(SpellFault::Memory) => return Err(ScriptFault::Memory),
        }
    }
    Ok(all)
}

/// What a file of so many bytes is read as, or the byte where it is at fault.
fn one_read(alloc: Global, tokens: &[Token], bytes: usize) -> Result<FileScripts, SpellFault>
    ensures ok { (text : List ℕ) → length text ≡ bytes → IsShallowText text tokens.now → IfOk result (λ f.
        (ss : List WrittenScript) × IsWritten text ss × AreScripts ss f.scripts.items f.is_high) }
    ensures fault { (text : List ℕ) → length text ≡ bytes → IsShallowText text tokens.now →
        IfErr result (IsUnwrittenAt text) }
{
    let front = before_sequences(tokens);
    if front.len() < tokens.len() {
        return Err(unread_at(alloc, tokens, front, bytes));
    }
    match file_scripts(alloc, tokens) {
        Ok(read) => match second_type(alloc, &read.scripts)? {
            Some(place) => Err(SpellFault::At(place)),
            None => Ok(read),
        },
        Err(SpellFault::At(place)) => Err(SpellFault::At(byte_of(tokens, place, bytes))),
        Err(SpellFault::Memory) => Err(SpellFault::Memory),
    }
}

/// The byte where a file of so many bytes is at fault that has signs or words of sequences: where the first of them stands, if
/// scripts are written up to there.
fn unread_at(alloc: Global, tokens: &[Token], front: &[Token], bytes: usize) -> SpellFault
    requires cut { front.now ≡ before_sequences false tokens.now }
    requires shorter { length front.now < length tokens.now }
    ensures { (text : List ℕ) → length text ≡ bytes → IsShallowText text tokens.now → IsUnwrittenAt text result }
{
    match file_scripts(alloc, front) {
        Ok(_) => SpellFault::At(byte_of(tokens, front.len(), bytes)),
        Err(SpellFault::At(place)) => SpellFault::At(byte_of(tokens, place, bytes)),
        Err(SpellFault::Memory) => SpellFault::Memory,
    }
}

/// The byte at which the token starts before which so many stand, or the length of the text.
fn byte_of(tokens: &[Token], place: usize, length: usize) -> usize
    ensures { result ≡ byte_at length tokens.now place }
{
    match tokens.get(place) {
        Some(token) => token.start,
        None => length,
    }
}

/// Looks for terms that are too high.
fn all_low(texts: &[Vec<u8>], read: &[FileScripts]) -> Result<(), ScriptFault>
    requires countable { length texts.now < 2 ^ 32 }
    requires kept { AllZip IsKeptOf (map (λ text. text.items) texts.now) read.now }
    ensures ok { IfOk result (λ _. AllZip IsLowAs (map (λ text. text.items) texts.now) read.now) }
    ensures fault { IfErr result (IsFaultOf (map (λ text. text.items) texts.now)) }
{
    for (file, read) in read.iter().enumerate() {
        if read.is_high {
            return Err(limit(12, file));
        }
    }
    Ok(())
}

/// Looks for scripts with too many rules.
fn all_short(texts: &[Vec<u8>], read: &[FileScripts]) -> Result<(), ScriptFault>
    requires countable { length texts.now < 2 ^ 32 }
    requires low { AllZip IsLowAs (map (λ text. text.items) texts.now) read.now }
    ensures ok { IfOk result (λ _. AllZip IsProofFileAs (map (λ text. text.items) texts.now) read.now) }
    ensures fault { IfErr result (IsFaultOf (map (λ text. text.items) texts.now)) }
{
    for (file, read) in read.iter().enumerate() {
        if !are_short(&read.scripts) {
            return Err(limit(8, file));
        }
    }
    Ok(())
}

/// Whether no script has too many rules.
fn are_short(scripts: &[RawScript]) -> bool
    ensures { IsTrue result ↔ All IsShort scripts.now }
{
    for script in scripts {
        if script.rules.len() > MOST_RULES {
            return false;
        }
    }
    true
}

/// Looks for a name that two scripts have.
fn all_differ(alloc: Global, texts: &[Vec<u8>], read: &[FileScripts]) -> Result<(), ScriptFault>
    requires countable { length texts.now < 2 ^ 32 }
    requires files { AllZip IsProofFileAs (map (λ text. text.items) texts.now) read.now }
    ensures ok { IfOk result (λ _. AllPairs (λ a b. a ≢ b) (names_of (flat_map (λ f. f.scripts.items) read.now))) }
    ensures fault { IfErr result (IsFaultOf (map (λ text. text.items) texts.now)) }
{
    let mut names = ScriptNames::new(alloc);
    for (file, read) in read.iter().enumerate() {
        if let Some(place) = names.twice(alloc, &read.scripts)? {
            return Err(fault(FaultKind::TwiceNamed, file, place));
        }
    }
    Ok(())
}

/// The scripts of all files, in order.
fn joined(alloc: Global, read: Vec<FileScripts>) -> Result<Vec<RawScript>, Memory>
    ensures { IfOk result (λ all. all.items ≡ flat_map (λ f. f.scripts.items) read.items) }
{
    let mut all = Vec::new(alloc);
    for file in read {
        let mut scripts = file.scripts;
        all.append(&mut scripts)?;
    }
    Ok(all)
}
