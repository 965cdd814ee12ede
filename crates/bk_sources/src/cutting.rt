//! The tokens of files.

ghost use Rattle.std.specs.Prelude.{◌≡◌, ◌<◌, ◌^◌, List, ℕ, length, map, All, IfOk, IfErr};
ghost use Rattle.std.specs.List.{AllZip};
ghost use Rattle.std.specs.Str.{IsUtf8};
ghost use Rattle.bk_raw.specs.Errors.Faults.{number_of_fault};
ghost use Rattle.bk_sources.specs.Files.{IsCut, IsFaultOf, IsShallowText};
ghost use Rattle.bk_sources.specs.Stages.{IsFileFault};

use crate::fault::FileFault;
use bk_form::Token;
use bk_lex::{LexFault, tokens};
use bk_raw::{FaultKind, too_deep};
use std::alloc::Global;

/// The tokens of each file, in order. Files count from 0.
///
/// Each fault and each limit is looked for in all of the files before the next one is: F1; F2 and limit 2; limit 3.
pub fn cut(alloc: Global, texts: &[Vec<u8>]) -> Result<Vec<Vec<Token>>, FileFault>
    requires countable { length texts.now < 2 ^ 32 }
    ensures shallow { IfOk result (λ files. AllZip IsShallowText (map (λ text. text.items) texts.now) (map (λ f. f.items) files.items)) }
    ensures fault { IfErr result (IsFaultOf (map (λ text. text.items) texts.now)) }
{
    all_utf8(texts)?;
    let files = all_tokens(alloc, texts)?;
    all_shallow(texts, &files)?;
    Ok(files)
}

/// Looks for bytes that are no UTF-8.
fn all_utf8(texts: &[Vec<u8>]) -> Result<(), FileFault>
    requires countable { length texts.now < 2 ^ 32 }
    ensures ok { IfOk result (λ _. All IsUtf8 (map (λ text. text.items) texts.now)) }
    ensures fault { IfErr result (IsFaultOf (map (λ text. text.items) texts.now)) }
{
    for (file, text) in texts.iter().enumerate() {
        if let Err(error) = str::from_utf8(text) {
            return Err(fault(FaultKind::NotUtf8, file, error.valid_up_to()));
        }
    }
    Ok(())
}

/// The fault of this kind.
fn fault(kind: FaultKind, file: usize, place: usize) -> FileFault
    requires { file < 2 ^ 32 }
    ensures { result ≡ FileFault.Fault (number_of_fault kind) file place }
{
    let file = file as u32;
    FileFault::Fault {
        number: kind.number(),
        file,
        place,
    }
}

/// The limit with this number.
fn limit(number: u8, file: usize) -> FileFault
    requires { file < 2 ^ 32 }
    ensures { result ≡ FileFault.Limit number file }
{
    let file = file as u32;
    FileFault::Limit { number, file }
}

/// The tokens of each file.
fn all_tokens(alloc: Global, texts: &[Vec<u8>]) -> Result<Vec<Vec<Token>>, FileFault>
    requires countable { length texts.now < 2 ^ 32 }
    requires utf8 { All IsUtf8 (map (λ text. text.items) texts.now) }
    ensures ok { IfOk result (λ files. AllZip IsCut (map (λ text. text.items) texts.now) (map (λ f. f.items) files.items)) }
    ensures fault { IfErr result (IsFaultOf (map (λ text. text.items) texts.now)) }
{
    let mut files = Vec::new(alloc);
    for (file, text) in texts.iter().enumerate() {
        match tokens(alloc, text) {
            Ok(found) => files.push(found)?,
            Err(error) => return Err(lexical(error, file)),
        }
    }
    Ok(files)
}

/// What the fault of a file's tokens is among those of files.
fn lexical(error: LexFault, file: usize) -> FileFault
    requires { file < 2 ^ 32 }
    ensures { (texts : List (List ℕ)) → IsFileFault texts file error → All IsUtf8 texts → IsFaultOf texts result }
{
    match error {
        LexFault::NotUtf8(place) => fault(FaultKind::NotUtf8, file, place),
        LexFault::BadChar(place) => fault(FaultKind::NoToken, file, place),
        LexFault::OpenComment(place) => fault(FaultKind::NoToken, file, place),
        LexFault::NumberTooWide(place) => fault(FaultKind::NoToken, file, place),
        LexFault::Limit(_) => limit(2, file),
        LexFault::Memory => FileFault::Memory,
    }
}

/// Looks for tokens at which too many brackets or blocks are open.
fn all_shallow(texts: &[Vec<u8>], files: &[Vec<Token>]) -> Result<(), FileFault>
    requires countable { length texts.now < 2 ^ 32 }
    requires cut { AllZip IsCut (map (λ text. text.items) texts.now) (map (λ f. f.items) files.now) }
    ensures ok { IfOk result (λ _. AllZip IsShallowText (map (λ text. text.items) texts.now) (map (λ f. f.items) files.now)) }
    ensures fault { IfErr result (IsFaultOf (map (λ text. text.items) texts.now)) }
{
    for (file, tokens) in files.iter().enumerate() {
        if too_deep(tokens).is_some() {
            return Err(limit(3, file));
        }
    }
    Ok(())
}
