//! Why a formula was not made.

ghost use Rattle.std.specs.Prelude.{◌≡◌};
ghost use Rattle.bk_bind.specs.declared.error.BindFault.TheVariants.{Memory};

use thiserror::Error;

/// Why a formula was not made of others.
#[derive(Clone, Copy, PartialEq, Eq, Debug, Error)]
pub enum BindFault {
    /// It would have more than `MOST_NODES` nodes, or more than `GREATEST_HEIGHT` on some way down.
    #[error("the formula is too large")]
    TooLarge,
    #[error("out of memory")]
    Memory,
}

impl From<bk_io::Memory> for BindFault {
    ghost from_gives = { λ _ fault. fault ≡ Memory };

    fn from(_: bk_io::Memory) -> Self {
        BindFault::Memory
    }
}
