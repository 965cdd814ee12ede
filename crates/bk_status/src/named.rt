//! Scripts by their names.

ghost use Rattle.std.specs.Prelude.{◌≡◌, ℕ, List, IfOk, IfSome, OnOk};
ghost use Rattle.std.specs.Option.{option_copied};
ghost use Rattle.std.specs.Str.{bytes_eq};
ghost use Rattle.indexmap.specs.IndexMap.{get_by};
ghost use Rattle.bk_p_proof.specs.Files.{IsShort};
ghost use Rattle.bk_status.specs.Places.{found_or, script_place};
ghost use Rattle.bk_status.specs.States.{script_named};

use crate::name::name_text;
use bk_io::{Memory, Text};
use bk_p_proof::Scripts;
use bk_raw::RawScript;
use indexmap::IndexMap;
use std::alloc::Global;
use std::marker::Model;

/// The scripts of proof files, which are found by their names.
#[derive(Drop)]
pub(crate) struct NamedScripts<'a> {
    scripts: &'a [RawScript],
    // The place of the first script with each name.
    places: IndexMap<Vec<u8>, usize>,
}

impl<'a> Model for NamedScripts<'a> {
    ghost use Rattle.std.specs.Prelude.{◌≡◌, ℕ, List, All};
    ghost use Rattle.std.specs.Coded.{coded_list};
    ghost use Rattle.std.specs.Str.{bytes_eq};
    ghost use Rattle.indexmap.specs.IndexMap.{get_by};
    ghost use Rattle.bk_raw.specs.Codes.ScriptCodes.{coded_script};
    ghost use Rattle.bk_raw.specs.Trees.ScriptTree.{RawScript};
    ghost use Rattle.bk_p_proof.specs.Files.{IsShort};
    ghost use Rattle.bk_status.specs.Places.{script_place};

    ghost Value = { List RawScript };

    ghost coded = { coded_list coded_script };

    ghost view = { λ s. s.scripts.now };

    ghost invariant = { λ s. All IsShort s.scripts.now ×
        ((name : List ℕ) → get_by (λ k. bytes_eq name k.items) s.places ≡ script_place s.scripts.now name) };
}

impl<'a> NamedScripts<'a> {
    /// The scripts, by their names.
    pub(crate) fn new(alloc: Global, scripts: &'a Scripts) -> Result<NamedScripts<'a>, Memory>
        ensures { IfOk result (λ named. named ≡ scripts.now) }
    {
        scripts.facts();
        let scripts = scripts.all();
        let places = places_of(alloc, scripts)?;
        Ok(NamedScripts { scripts, places })
    }

    /// The first script with the name.
    pub(crate) fn find(&self, name: &Text) -> Option<&RawScript>
        ensures named { option_copied result ≡ script_named self.now name.now }
        ensures short { IfSome result (λ script. IsShort script.now) }
    {
        match self.places.get(name.as_bytes()) {
            Some(place) => self.scripts.get(*place),
            None => None,
        }
    }
}

// The place of the first script with each name.
fn places_of(alloc: Global, scripts: &[RawScript]) -> Result<IndexMap<Vec<u8>, usize>, Memory>
    ensures { IfOk result (λ places. (name : List ℕ) → get_by (λ k. bytes_eq name k.items) places ≡ script_place scripts.now name) }
{
    let mut places = IndexMap::new(alloc);
    for (place, script) in scripts.iter().enumerate() {
        let name = name_text(alloc, &script.name)?;
        add_first(&mut places, name, place)?;
    }
    Ok(places)
}

// Puts a name in with a place, if it is not there.
fn add_first(
    places: &mut IndexMap<Vec<u8>, usize>,
    name: Vec<u8>,
    place: usize,
) -> Result<(), Memory>
    ensures { OnOk result ((other : List ℕ) → get_by (λ k. bytes_eq other k.items) places.new ≡
        found_or (get_by (λ k. bytes_eq other k.items) places.old) (bytes_eq other name.items) place) }
{
    if places.get(name.as_slice()).is_some() {
        return Ok(());
    }
    places.insert(name, place)?;
    Ok(())
}
