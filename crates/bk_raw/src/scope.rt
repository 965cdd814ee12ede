// The names that a term by itself may use.

ghost use Rattle.std.specs.Prelude.{◌≡◌, ◌++◌, ◌∷◌, [], None, OnOk, OnErr};
ghost use Rattle.bk_raw.specs.Meaning.ScopeReading.{last_from};

use bk_io::{Memory, Text};
use indexmap::IndexMap;
use std::alloc::Global;
use std::marker::Model;

/// The names that a term may use, each with the number of the variable that it stands for, and `MAXINT`. Of several
/// entries with one name the last is meant; where no variable of the table has its number, the name is not visible.
#[derive(Drop)]
pub struct Scope {
    max: i64,
    entries: Vec<(Text, u32)>,
    // The number of the last entry with each text.
    numbers: IndexMap<Vec<u8>, u32>,
}

impl Model for Scope {
    ghost use Rattle.std.specs.Prelude.{◌≡◌, ℕ, List, None};
    ghost use Rattle.std.specs.Str.{bytes_eq};
    ghost use Rattle.indexmap.specs.IndexMap.{get_by};
    ghost use Rattle.bk_raw.specs.Meaning.ScopeReading.{ScopeNames, last_from};

    ghost Value = { ScopeNames };

    ghost view = { λ s. record { max = s.max; names = s.entries.items } };

    ghost invariant = { λ s. (text : List ℕ) → get_by (λ k. bytes_eq text k.items) s.numbers ≡ last_from None s.entries.items text };
}

impl Scope {
    /// No names. It takes no memory.
    pub fn new(alloc: Global, max: i64) -> Scope
        ensures { result ≡ record { max = max; names = [] } }
    {
        Scope {
            max,
            entries: Vec::new(alloc),
            numbers: IndexMap::new(alloc),
        }
    }

    /// Adds a name, which hides another one with the same text.
    pub fn add(&mut self, name: Text, variable: u32) -> Result<(), Memory>
        ensures ok { OnOk result (self.new ≡ record { max = self.old.max; names = self.old.names ++ (name, variable) ∷ [] }) }
        ensures err { OnErr result (self.new ≡ self.old) }
    {
        let alloc = *self.entries.allocator();
        let text = Vec::from_slice(alloc, name.as_bytes())?;
        self.entries.push((name, variable))?;
        if self.numbers.insert(text, variable).is_err() {
            self.entries.pop();
            return Err(Memory);
        }
        Ok(())
    }

    /// `MAXINT`.
    pub fn max(&self) -> i64
        ensures { result ≡ self.now.max }
    {
        self.max
    }

    /// The number of the variable of the last name with this text. It takes time in the length of the text.
    pub fn find(&self, text: &[u8]) -> Option<u32>
        ensures { result ≡ last_from None self.now.names text.now }
    {
        self.numbers.get(text).copied()
    }
}
