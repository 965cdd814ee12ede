//! Why bytes are no image.
ghost use Rattle.std.specs.Prelude.{◌≡◌};
ghost use Rattle.bk_image.specs.declared.fault.LoadFault.TheVariants.{Memory as NoMemory};

use bk_code::Memory;
use std::alloc::{AllocError, AllocFailed};
use thiserror::Error;

/// Why bytes are no image, with the place of the fault where it isn't always the same. Places count bytes from 0.
#[derive(Clone, Copy, Debug, PartialEq, Eq, Error)]
pub enum LoadFault {
    /// The bytes end too early; the place is where they end.
    #[error("Short at {0}")]
    Short(usize),
    /// The first four bytes are others than those of every image.
    #[error("Magic at 0")]
    Magic,
    /// The version is this one, which is neither 1 nor 2.
    #[error("Version at 4")]
    Version(u16),
    /// The byte stands where an instruction begins, and begins none.
    #[error("BadInst at {0}")]
    BadInst(usize),
    /// The jump has no target, or the code doesn't end with a Jump or a Ret; an image without instructions has this fault
    /// at their number.
    #[error("BadJump at {0}")]
    BadJump(usize),
    /// The number is outside its range.
    #[error("BadSlot at {0}")]
    BadSlot(usize),
    /// At the instruction the stack has no depth that is one number, or one that breaks the rules.
    #[error("Stack at {0}")]
    Stack(usize),
    /// The byte is the first one after the image.
    #[error("Extra at {0}")]
    Extra(usize),
    #[error("out of memory")]
    Memory,
}

impl From<AllocError> for LoadFault {
    ghost from_gives = { λ _ e. e ≡ NoMemory };

    fn from(_: AllocError) -> Self {
        LoadFault::Memory
    }
}

impl<T: Drop> From<AllocFailed<T>> for LoadFault {
    ghost from_gives = { λ _ e. e ≡ NoMemory };

    fn from(_: AllocFailed<T>) -> Self {
        LoadFault::Memory
    }
}

impl From<Memory> for LoadFault {
    ghost from_gives = { λ _ e. e ≡ NoMemory };

    fn from(_: Memory) -> Self {
        LoadFault::Memory
    }
}
