//! Instances of laws, and why there is none.

ghost use Rattle.std.specs.Prelude.{◌≡◌};
ghost use Rattle.bk_bind.specs.declared.law.LawFault.TheVariants.{Memory};

use bk_form::Form;
use thiserror::Error;

/// A law at some formulas: where left and right stand for the same kind of thing and the sides are true, they mean the same.
#[derive(Drop)]
pub struct LawInstance {
    pub sides: Vec<Form>,
    pub left: Form,
    pub right: Form,
}

/// Why a law has no instance at some formulas.
#[derive(Clone, Copy, PartialEq, Eq, Debug, Error)]
pub enum LawFault {
    /// There is no such law.
    #[error("there is no such law")]
    Unknown,
    /// The law takes another number of formulas, and this many were given; else the first formula, counted from 1, that has to
    /// be an empty set and is none.
    #[error("the formulas do not fit the law: {0} is another number of them, or that of one that is no empty set")]
    Picks(u32),
    #[error("out of memory")]
    Memory,
}

impl From<bk_io::Memory> for LawFault {
    ghost from_gives = { λ _ fault. fault ≡ Memory };

    fn from(_: bk_io::Memory) -> Self {
        LawFault::Memory
    }
}
