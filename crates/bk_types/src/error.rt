//! Why a formula has no type.

ghost use Rattle.std.specs.Prelude.{◌≡◌};
ghost use Rattle.bk_types.specs.declared.error.TypeFault.TheVariants.{Memory};

use thiserror::Error;

/// Why no type is told of a formula.
#[derive(Clone, Copy, PartialEq, Eq, Debug, Error)]
pub enum TypeFault {
    /// It gives no type, or not the one that is asked.
    #[error("the formula does not type")]
    NoType,
    #[error("out of memory")]
    Memory,
}

impl From<bk_io::Memory> for TypeFault {
    ghost from_gives = { λ _ fault. fault ≡ Memory };

    fn from(_: bk_io::Memory) -> Self {
        TypeFault::Memory
    }
}
