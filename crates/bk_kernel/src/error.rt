//! Why a step of proof was not made.

ghost use Rattle.std.specs.Prelude.{◌≡◌};
ghost use Rattle.bk_kernel.specs.Faults.{fault_of};
ghost use Rattle.bk_kernel.specs.declared.error.StepFault.TheVariants.{Memory};

use bk_bind::BindFault;
use std::alloc::AllocFailed;
use thiserror::Error;

/// Why a step of proof was not made.
#[derive(Clone, Copy, PartialEq, Eq, Debug, Error)]
pub enum StepFault {
    /// The rule does not fit the sequent, or makes a formula that does not type or is too large.
    #[error("the rule does not fit the sequent")]
    NoInstance,
    #[error("out of memory")]
    Memory,
}

impl From<BindFault> for StepFault {
    ghost from_gives = { λ bind fault. fault ≡ fault_of bind };

    fn from(fault: BindFault) -> Self {
        match fault {
            BindFault::TooLarge => StepFault::NoInstance,
            BindFault::Memory => StepFault::Memory,
        }
    }
}

impl From<bk_io::Memory> for StepFault {
    ghost from_gives = { λ _ fault. fault ≡ Memory };

    fn from(_: bk_io::Memory) -> Self {
        StepFault::Memory
    }
}

impl<T: Drop> From<AllocFailed<T>> for StepFault {
    ghost from_gives = { λ _ fault. fault ≡ Memory };

    fn from(_: AllocFailed<T>) -> Self {
        StepFault::Memory
    }
}
