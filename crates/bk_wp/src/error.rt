//! Why a box, a diamond or an evaluation condition was not made.

ghost use Rattle.std.specs.Prelude.{◌≡◌};
ghost use Rattle.bk_wp.specs.Faults.{fault_of};
ghost use Rattle.bk_wp.specs.declared.error.WpFault.TheVariants.{Memory};

use bk_bind::BindFault;
use thiserror::Error;

/// Why a box, a diamond or an evaluation condition was not made.
#[derive(Clone, Copy, PartialEq, Eq, Debug, Error)]
pub enum WpFault {
    /// It would have more than `MOST_NODES` nodes, or more than `GREATEST_HEIGHT` on some way down.
    #[error("the formula is too large")]
    TooLarge,
    #[error("out of memory")]
    Memory,
}

impl From<BindFault> for WpFault {
    ghost from_gives = { λ bind fault. fault ≡ fault_of bind };

    fn from(fault: BindFault) -> Self {
        match fault {
            BindFault::TooLarge => WpFault::TooLarge,
            BindFault::Memory => WpFault::Memory,
        }
    }
}

impl From<bk_io::Memory> for WpFault {
    ghost from_gives = { λ _ fault. fault ≡ Memory };

    fn from(_: bk_io::Memory) -> Self {
        WpFault::Memory
    }
}
