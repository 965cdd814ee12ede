//! Why a development has no image.

ghost use Rattle.std.specs.Prelude.{◌≡◌};
ghost use Rattle.bk_gen.specs.declared.error.GenFault.TheVariants.{Memory};

use thiserror::Error;

/// Why there is no image.
#[derive(Clone, Copy, PartialEq, Eq, Debug, Error)]
pub enum GenFault {
    /// There would be more than `MOST_INSTRUCTIONS` instructions.
    #[error("the code is too long")]
    CodeTooLong,
    /// There would be more than `MOST_CELLS` cells.
    #[error("there are too many cells")]
    TooManyCells,
    #[error("out of memory")]
    Memory,
}

impl From<bk_io::Memory> for GenFault {
    ghost from_gives = { λ _ fault. fault ≡ Memory };

    fn from(_: bk_io::Memory) -> Self {
        GenFault::Memory
    }
}

impl From<bk_code::Memory> for GenFault {
    ghost from_gives = { λ _ fault. fault ≡ Memory };

    fn from(_: bk_code::Memory) -> Self {
        GenFault::Memory
    }
}
