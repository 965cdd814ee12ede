//! Why a written term is no formula.

ghost use Rattle.std.specs.Prelude.{◌≡◌};
ghost use Rattle.bk_elab_terms.specs.declared.error.ElabFault.TheVariants.{Memory};

use std::alloc::{AllocError, AllocFailed};
use thiserror::Error;

/// Why what is written has no meaning.
#[derive(Clone, Copy, PartialEq, Eq, Debug, Error)]
pub enum ElabFault {
    /// The fault with this number stands at this byte: 6 for a name that stands twice, 7 for one that is not in
    /// sight, 9 for an expression where a predicate stands or the reverse, 8 for what has no type.
    #[error("fault {number} at {place}")]
    Fault { number: u8, place: usize },
    /// The limit with this number is passed.
    #[error("limit {0} is passed")]
    Limit(u8),
    #[error("out of memory")]
    Memory,
}

impl From<bk_io::Memory> for ElabFault {
    ghost from_gives = { λ _ fault. fault ≡ Memory };

    fn from(_: bk_io::Memory) -> Self {
        ElabFault::Memory
    }
}

impl From<AllocError> for ElabFault {
    ghost from_gives = { λ _ fault. fault ≡ Memory };

    fn from(_: AllocError) -> Self {
        ElabFault::Memory
    }
}

impl<T: Drop> From<AllocFailed<T>> for ElabFault {
    ghost from_gives = { λ _ fault. fault ≡ Memory };

    fn from(_: AllocFailed<T>) -> Self {
        ElabFault::Memory
    }
}
