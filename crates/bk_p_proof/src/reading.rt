// The scripts of one file.

ghost use Rattle.std.specs.Prelude.{◌≡◌, List, IfOk, IfErr, map};
ghost use Rattle.bk_raw.specs.Trees.ScriptTree.{RawScript as WrittenScript};
ghost use Rattle.bk_raw.specs.Grammar.ScriptSpelling.{SpellsScripts};
ghost use Rattle.bk_p_proof.specs.Kept.{AreScripts};
ghost use Rattle.bk_p_proof.specs.Spelled.{IsMisspelled};

use crate::script::open_script;
use crate::token::after_name;
use bk_form::Token;
use bk_io::Memory;
use bk_raw::RawScript;
use std::alloc::{AllocError, AllocFailed, Global};

/// The scripts that a file is read as. Of scripts that are too high only the names with their types are kept.
#[derive(Drop)]
pub(crate) struct FileScripts {
    pub(crate) scripts: Vec<RawScript>,
    pub(crate) is_high: bool,
}

/// Why no scripts are read.
#[derive(Drop)]
pub(crate) enum SpellFault {
    /// So many tokens stand before the one at fault.
    At(usize),
    Memory,
}

impl From<Memory> for SpellFault {
    ghost use Rattle.bk_p_proof.specs.declared.reading.SpellFault.TheVariants.{Memory as OutOfMemory};

    ghost from_gives = { λ _ e. e ≡ OutOfMemory };

    fn from(_: Memory) -> Self {
        SpellFault::Memory
    }
}

impl<T: Drop> From<AllocFailed<T>> for SpellFault {
    ghost use Rattle.bk_p_proof.specs.declared.reading.SpellFault.TheVariants.{Memory as OutOfMemory};

    ghost from_gives = { λ _ e. e ≡ OutOfMemory };

    fn from(_: AllocFailed<T>) -> Self {
        SpellFault::Memory
    }
}

/// The scripts that all of the tokens are written as.
pub(crate) fn file_scripts(alloc: Global, tokens: &[Token]) -> Result<FileScripts, SpellFault>
    ensures ok { IfOk result (λ f. (ss : List WrittenScript) × SpellsScripts ss tokens.now ×
        AreScripts ss f.scripts.items f.is_high) }
    ensures fault { IfErr result (IsMisspelled tokens.now) }
{
    let mut scripts = Vec::new(alloc);
    let mut is_high = false;
    let mut rest = tokens;
    while !rest.is_empty() {
        let Some((script, one_is_high, behind)) = open_script(alloc, rest)? else {
            return Err(SpellFault::At(tokens.len() - rest.len()));
        };
        let Some(after) = after_name(behind, b"end") else {
            return Err(SpellFault::At(tokens.len() - behind.len()));
        };
        scripts.push(script)?;
        is_high = is_high || one_is_high;
        rest = after;
    }
    Ok(FileScripts { scripts, is_high })
}
