//! Why tokens can't be read.

ghost use Rattle.std.specs.Prelude.{◌≡◌};
ghost use Rattle.bk_p_expr.specs.declared.fault.SynFault.TheVariants.{Memory as NoMemory};

use bk_io::Memory;
use std::alloc::{AllocError, AllocFailed};
use thiserror::Error;

/// Why tokens can't be read. Places are those of tokens in the list, counted from 0.
#[derive(Clone, Copy, PartialEq, Debug, Error)]
pub enum SynFault {
    /// Nothing is written from this token on.
    #[error("nothing can be read at token {0}")]
    At(usize),
    /// The first token at which more than `MOST_OPEN` brackets, or more than `MOST_OPEN` blocks, are open.
    #[error("too many are open at token {0}")]
    Depth(usize),
    /// The tree would be more than `GREATEST_TREE_HEIGHT` nodes high.
    #[error("too high")]
    High,
    #[error("out of memory")]
    Memory,
}

impl From<Memory> for SynFault {
    ghost from_gives = { λ _ fault. fault ≡ NoMemory };

    fn from(_: Memory) -> Self {
        SynFault::Memory
    }
}

impl From<AllocError> for SynFault {
    ghost from_gives = { λ _ fault. fault ≡ NoMemory };

    fn from(_: AllocError) -> Self {
        SynFault::Memory
    }
}

impl<T: Drop> From<AllocFailed<T>> for SynFault {
    ghost from_gives = { λ _ fault. fault ≡ NoMemory };

    fn from(_: AllocFailed<T>) -> Self {
        SynFault::Memory
    }
}
