// Why a project is not read.

ghost use Rattle.std.specs.Prelude.{◌≡◌};
ghost use Rattle.bk_front.specs.declared.refusal.Refusal.TheVariants.{Memory as OutOfMemory};

use bk_io::Memory;
use std::alloc::{AllocError, AllocFailed};
use thiserror::Error;

/// Why a project is not read. File 0 is the project file; the others count in the order of the component lines.
#[derive(Clone, Copy, Debug, PartialEq, Eq, Error)]
pub enum Refusal {
    /// The fault with this number; the place is a byte of the file, and of F4 the number of a line, from 1.
    #[error("fault F{number} in file {file} at {place}")]
    Fault { number: u8, file: u32, place: usize },
    /// The file passes this limit.
    #[error("file {file} passes limit {number}")]
    Limit { number: u8, file: u32 },
    #[error("out of memory")]
    Memory,
}

impl From<Memory> for Refusal {
    ghost from_gives = { λ _ e. e ≡ OutOfMemory };

    fn from(_: Memory) -> Self {
        Refusal::Memory
    }
}

impl From<AllocError> for Refusal {
    ghost from_gives = { λ _ e. e ≡ OutOfMemory };

    fn from(_: AllocError) -> Self {
        Refusal::Memory
    }
}

impl<T: Drop> From<AllocFailed<T>> for Refusal {
    ghost from_gives = { λ _ e. e ≡ OutOfMemory };

    fn from(_: AllocFailed<T>) -> Self {
        Refusal::Memory
    }
}
