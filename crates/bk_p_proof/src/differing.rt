// Names of scripts, of which no two are one.

ghost use Rattle.std.specs.Prelude.{◌≡◌, ◌≢◌, ◌++◌, List, [], IfOk, OnOk, MatchOption, map};
ghost use Rattle.std.specs.List.{AllPairs};
ghost use Rattle.bk_raw.specs.declared.script.NamePart.{NamePart as Part};
ghost use Rattle.bk_p_proof.specs.Files.{names_of};
ghost use Rattle.bk_p_proof.specs.Keys.{FitsKey, HasKeys, IsAgain, NameFits, name_key, part_key};

use bk_io::Memory;
use bk_raw::{NamePart, RawScript};
use indexmap::IndexSet;
use std::alloc::Global;

/// The names of scripts so far. Each is kept as a key, by which it is found.
#[derive(Drop)]
pub(crate) struct ScriptNames {
    keys: IndexSet<Vec<u8>>,
}

impl ScriptNames {
    /// None yet.
    pub(crate) fn new(alloc: Global) -> ScriptNames
        ensures { HasKeys [] (map (λ key. key.items) result.keys.keys) }
    {
        ScriptNames {
            keys: IndexSet::new(alloc),
        }
    }

    /// Takes in the names of these scripts. Where one is there already, the byte where it starts.
    pub(crate) fn twice(
        &mut self,
        alloc: Global,
        scripts: &[RawScript],
    ) -> Result<Option<usize>, Memory>
        ensures { (names : List (List Part)) → HasKeys names (map (λ key. key.items) self.old.keys.keys) →
            AllPairs (λ a b. a ≢ b) names → IfOk result (λ r. MatchOption r
            (HasKeys (names ++ names_of scripts.now) (map (λ key. key.items) self.new.keys.keys) ×
            AllPairs (λ a b. a ≢ b) (names ++ names_of scripts.now)) (IsAgain names scripts.now)) }
    {
        for script in scripts {
            let key = key_of(alloc, &script.name)?;
            if !self.keys.insert(key)? {
                return Ok(Some(script.name_at));
            }
        }
        Ok(None)
    }
}

/// The key of a name: two names with one key are the same.
fn key_of(alloc: Global, name: &[NamePart]) -> Result<Vec<u8>, Memory>
    ensures key { IfOk result (λ key. key.items ≡ name_key name.now) }
    ensures fits { IfOk result (λ _. NameFits name.now) }
{
    let mut key = Vec::new(alloc);
    for part in name {
        add_part(&mut key, part)?;
    }
    Ok(key)
}

/// Puts the key of a part after the others.
fn add_part(key: &mut Vec<u8>, part: &NamePart) -> Result<(), Memory>
    ensures key { OnOk result (key.new.items ≡ key.old.items ++ part_key part.now) }
    ensures fits { OnOk result (FitsKey part.now) }
{
    match part {
        NamePart::Letters(text) => {
            let bytes = text.as_bytes();
            key.push(1)?;
            key.extend_from_slice(&bytes.len().to_le_bytes())?;
            key.extend_from_slice(bytes)?;
        }
        NamePart::Numeral(number) => {
            key.push(2)?;
            key.extend_from_slice(&number.to_le_bytes())?;
        }
    }
    Ok(())
}
