//! Why arithmetic on formulas is refused.

ghost use Rattle.std.specs.Prelude.{◌≡◌};
ghost use Rattle.bk_arith.specs.declared.error.ArithFault.TheVariants.{Cert as CertificateFault, Memory};

use bk_lin::CertFault;
use std::alloc::{AllocError, AllocFailed};
use thiserror::Error;

/// Why arithmetic on formulas is refused: a certificate for a goal under hypotheses, an equation of polynomials, or the cases of
/// a membership.
#[derive(Clone, Copy, PartialEq, Eq, Debug, Error)]
pub enum ArithFault {
    /// The formula with this number, from 1 with the goal last, is no comparison that is read. It is the first such one.
    #[error("formula {0} is no comparison")]
    NotLinear(usize),
    /// What the certificate's check answers over the facts.
    #[error("the certificate is refused: {0}")]
    Cert(CertFault),
    /// A coefficient or a constant of a part of a fact, or of a part of a term that is multiplied out, does not fit 128 bits.
    #[error("a number does not fit 128 bits")]
    TooWide,
    /// The formula is no membership in an interval of literals, or in one of more than 64 numbers.
    #[error("the formula has no cases")]
    Cases,
    #[error("out of memory")]
    Memory,
}

impl From<CertFault> for ArithFault {
    ghost from_gives = { λ fault given. given ≡ CertificateFault fault };

    fn from(fault: CertFault) -> Self {
        ArithFault::Cert(fault)
    }
}

impl From<bk_io::Memory> for ArithFault {
    ghost from_gives = { λ _ fault. fault ≡ Memory };

    fn from(_: bk_io::Memory) -> Self {
        ArithFault::Memory
    }
}

impl From<AllocError> for ArithFault {
    ghost from_gives = { λ _ fault. fault ≡ Memory };

    fn from(_: AllocError) -> Self {
        ArithFault::Memory
    }
}

impl<T: Drop> From<AllocFailed<T>> for ArithFault {
    ghost from_gives = { λ _ fault. fault ≡ Memory };

    fn from(_: AllocFailed<T>) -> Self {
        ArithFault::Memory
    }
}
