//! Why proof files are not read.

ghost use Rattle.std.specs.Prelude.{◌≡◌};
ghost use Rattle.bk_p_proof.specs.FilesTold.{of_files};
ghost use Rattle.bk_p_proof.specs.declared.fault.ScriptFault.TheVariants.{Memory as OutOfMemory};

use bk_io::Memory;
use bk_sources::FileFault;
use std::alloc::{AllocError, AllocFailed};
use thiserror::Error;

/// Why proof files are not read. Files count from 0.
#[derive(Clone, Copy, Debug, PartialEq, Eq, Error)]
pub enum ScriptFault {
    /// The fault with this number; the place is a byte of the file.
    #[error("fault F{number} in proof file {file} at {place}")]
    Fault { number: u8, file: u32, place: usize },
    /// The file passes this limit.
    #[error("proof file {file} passes limit {number}")]
    Limit { number: u8, file: u32 },
    #[error("out of memory")]
    Memory,
}

impl From<Memory> for ScriptFault {
    ghost from_gives = { λ _ e. e ≡ OutOfMemory };

    fn from(_: Memory) -> Self {
        ScriptFault::Memory
    }
}

impl From<AllocError> for ScriptFault {
    ghost from_gives = { λ _ e. e ≡ OutOfMemory };

    fn from(_: AllocError) -> Self {
        ScriptFault::Memory
    }
}

impl<T: Drop> From<AllocFailed<T>> for ScriptFault {
    ghost from_gives = { λ _ e. e ≡ OutOfMemory };

    fn from(_: AllocFailed<T>) -> Self {
        ScriptFault::Memory
    }
}

impl From<FileFault> for ScriptFault {
    ghost from_gives = { λ told e. e ≡ of_files told };

    fn from(told: FileFault) -> Self {
        match told {
            FileFault::Fault {
                number,
                file,
                place,
            } => ScriptFault::Fault {
                number,
                file,
                place,
            },
            FileFault::Limit { number, file } => ScriptFault::Limit { number, file },
            FileFault::Memory => ScriptFault::Memory,
        }
    }
}
