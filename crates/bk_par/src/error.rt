//! Why a substitution was not rewritten.

ghost use Rattle.std.specs.Prelude.{◌≡◌};
ghost use Rattle.bk_par.specs.declared.error.ParFault.TheVariants.{Memory};

use thiserror::Error;

/// Why a substitution was not rewritten.
#[derive(Clone, Copy, PartialEq, Eq, Debug, Error)]
pub enum ParFault {
    /// Both sides of a `||` write this variable.
    #[error("both sides write variable {0}")]
    Overlap(u32),
    #[error("out of memory")]
    Memory,
}

impl From<bk_io::Memory> for ParFault {
    ghost from_gives = { λ _ fault. fault ≡ Memory };

    fn from(_: bk_io::Memory) -> Self {
        ParFault::Memory
    }
}
