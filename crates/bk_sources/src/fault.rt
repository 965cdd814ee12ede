//! Why the tokens of files are not told.

ghost use Rattle.std.specs.Prelude.{◌≡◌};
ghost use Rattle.bk_sources.specs.declared.fault.FileFault.TheVariants.{Memory as OutOfMemory};

use bk_io::Memory;
use std::alloc::{AllocError, AllocFailed};
use thiserror::Error;

/// Why the tokens of files are not told. Files count from 0.
#[derive(Clone, Copy, Debug, PartialEq, Eq, Error)]
pub enum FileFault {
    /// The fault with this number; the place is a byte of the file.
    #[error("fault F{number} in file {file} at {place}")]
    Fault { number: u8, file: u32, place: usize },
    /// The file passes this limit.
    #[error("file {file} passes limit {number}")]
    Limit { number: u8, file: u32 },
    #[error("out of memory")]
    Memory,
}

impl From<Memory> for FileFault {
    ghost from_gives = { λ _ e. e ≡ OutOfMemory };

    fn from(_: Memory) -> Self {
        FileFault::Memory
    }
}

impl From<AllocError> for FileFault {
    ghost from_gives = { λ _ e. e ≡ OutOfMemory };

    fn from(_: AllocError) -> Self {
        FileFault::Memory
    }
}

impl<T: Drop> From<AllocFailed<T>> for FileFault {
    ghost from_gives = { λ _ e. e ≡ OutOfMemory };

    fn from(_: AllocFailed<T>) -> Self {
        FileFault::Memory
    }
}
