//! The table of names.

ghost use Rattle.std.specs.Prelude.{◌≡◌, ◌≢◌, ◌↔◌, ◌^◌, ◌<◌, ◌≤◌, ℕ, List, [], None, Some, length, map};
ghost use Rattle.std.specs.Prelude.{slice_get, Contains, IsSome, IsTrue, IsOk, IfSome, IfOk, OnOk, OnErr};
ghost use Rattle.std.specs.List.{AllPairs};
ghost use Rattle.bk_names.specs.Names.{place_among, with_name};

use crate::error::Memory;
use indexmap::IndexSet;
use std::alloc::Global;
use std::marker::Model;

/// Texts without doubles, in the order in which they were first numbered.
#[derive(Drop)]
pub struct Names {
    texts: IndexSet<Vec<u8>>,
}

impl Model for Names {
    ghost Value = { List (List ℕ) };

    ghost view = { λ names. map (λ text. text.items) names.texts.keys };

    ghost invariant = { λ names. length names.texts.keys ≤ 2 ^ 32 };
}

impl Names {
    /// No names yet. Takes no memory.
    pub fn new(alloc: Global) -> Names
        ensures { result ≡ [] }
    {
        Names {
            texts: IndexSet::new(alloc),
        }
    }

    /// How many names there are, which is the number that the next new name gets.
    pub fn len(&self) -> usize
        ensures len { result ≡ length self.now }
        ensures fits { length self.now ≤ 2 ^ 32 }
        ensures without_doubles { AllPairs (λ a b. a ≢ b) self.now }
    {
        self.texts.len()
    }

    /// The number of a name. Takes no memory, and time linear in the text's length.
    pub fn find(&self, text: &[u8]) -> Option<u32>
        ensures place { result ≡ place_among self.now text.now }
        ensures stands { IfSome result (λ n. slice_get self.now n ≡ Some text.now) }
        ensures found { IsSome result ↔ Contains self.now text.now }
    {
        let n = self.texts.get_index_of(text)?;
        Some(n as u32)
    }

    /// The number of a text: a known name keeps its number, and a new one gets the next and is kept.
    /// Only a new name takes memory.
    pub fn number(&mut self, text: &[u8]) -> Result<u32, Memory>
        requires { length self.old < 2 ^ 32 }
        ensures number { IfOk result (λ n. place_among self.new text.now ≡ Some n) }
        ensures stands { IfOk result (λ n. slice_get self.new n ≡ Some text.now) }
        ensures names { OnOk result (self.new ≡ with_name self.old text.now) }
        ensures known { Contains self.old text.now → IsOk result }
        ensures err { OnErr result (self.new ≡ self.old) }
    {
        if let Some(n) = self.find(text) {
            return Ok(n);
        }
        let copy = Vec::from_slice(*self.texts.allocator(), text)?;
        let (n, _) = self.texts.insert_full(copy)?;
        Ok(n as u32)
    }

    /// The name that has the number `n`.
    pub fn text(&self, n: u32) -> &[u8]
        requires { n < length self.now }
        ensures { slice_get self.now n ≡ Some result.now }
    {
        self.texts.as_slice()[n as usize].as_slice()
    }
}
