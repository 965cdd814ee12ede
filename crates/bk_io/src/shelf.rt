// Where named files come from: what a fetch answers, and what it means.
ghost use Rattle.std.specs.Prelude.{◌≡◌, ℕ, Option, OnOk, OnErr, IfSome};
ghost use Rattle.bk_io.specs.Counts.{HasCause, Rose};
ghost use Rattle.bk_io.specs.Files.{Files, file_named, GainsUpTo, AnswersFile};
ghost use Rattle.bk_io.specs.declared.shelf.Fetch.TheVariants.{Memory};

use crate::text;
use std::alloc::{AllocError, AllocFailed};
use thiserror::Error;

/// Why a file was not fetched.
#[derive(Clone, Copy, Debug, PartialEq, Eq, Error)]
pub enum Fetch {
    #[error("there is no such file")]
    Missing,
    #[error("the file could not be read")]
    Failed,
    #[error("the file is too long")]
    TooLong,
    #[error("out of memory")]
    Memory,
}

impl From<AllocError> for Fetch {
    ghost from_gives = { λ _ e. e ≡ Memory };

    fn from(_: AllocError) -> Self {
        Fetch::Memory
    }
}

impl<T: Drop> From<AllocFailed<T>> for Fetch {
    ghost from_gives = { λ _ e. e ≡ Memory };

    fn from(_: AllocFailed<T>) -> Self {
        Fetch::Memory
    }
}

impl From<text::Memory> for Fetch {
    ghost from_gives = { λ _ e. e ≡ Memory };

    fn from(_: text::Memory) -> Self {
        Fetch::Memory
    }
}

/// Files by name. A shelf in memory tells contracts its files; one over the system's files tells none.
pub trait Shelf {
    /// The files, where they are told.
    ghost files: { Self → Option Files };

    /// How often reading has failed.
    ghost faults: { Self → ℕ };

    /// How often a file was missing.
    ghost absences: { Self → ℕ };

    /// Appends the bytes of the file with this name, at most `max` of them.
    fn fetch(&mut self, name: &str, max: usize, into: &mut Vec<u8>) -> Result<(), Fetch>
        ensures same_files { files self.new ≡ files self.old }
        ensures failed { HasCause Fetch.Failed (faults self.old) (faults self.new) result }
        ensures missing { HasCause Fetch.Missing (absences self.old) (absences self.new) result }
        ensures ok { OnOk result (GainsUpTo max into.old.items into.new.items) }
        ensures err { OnErr result (into.new.items ≡ into.old.items) }
        ensures told { IfSome (files self.old) (λ all. AnswersFile (file_named all name.now) max
            (Rose (faults self.old) (faults self.new)) into.old.items into.new.items result) };
}
