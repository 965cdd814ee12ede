//! Why a development has no obligations.

ghost use Rattle.std.specs.Prelude.{◌≡◌};
ghost use Rattle.bk_po.specs.declared.error.PoFault.TheVariants.{Memory};

use bk_io::Text;
use std::alloc::{AllocError, AllocFailed};
use thiserror::Error;

/// Why the obligations of a development were not made.
#[derive(Debug, Drop, Error)]
pub enum PoFault {
    /// The obligation with this name, which has no number yet, is the first with more than `MOST_NODES` nodes, or more than
    /// `GREATEST_HEIGHT` on some way down.
    #[error("an obligation is too large")]
    TooLarge { name: Text },
    /// The limit with this number is passed by all obligations together: 7, of `MOST_OBLIGATIONS` sequents, or 14, of `MOST_NODES_TOGETHER` nodes.
    #[error("the obligations pass limit {0}")]
    TooMany(u8),
    #[error("out of memory")]
    Memory,
}

impl From<bk_io::Memory> for PoFault {
    ghost from_gives = { λ _ fault. fault ≡ Memory };

    fn from(_: bk_io::Memory) -> Self {
        PoFault::Memory
    }
}

impl From<AllocError> for PoFault {
    ghost from_gives = { λ _ fault. fault ≡ Memory };

    fn from(_: AllocError) -> Self {
        PoFault::Memory
    }
}

impl<T: Drop> From<AllocFailed<T>> for PoFault {
    ghost from_gives = { λ _ fault. fault ≡ Memory };

    fn from(_: AllocFailed<T>) -> Self {
        PoFault::Memory
    }
}
