//! Why a word or sign of sequences was not expanded.

ghost use Rattle.std.specs.Prelude.{◌≡◌};
ghost use Rattle.bk_seqs.specs.declared.fault.SeqFault.TheVariants.{Memory};

use thiserror::Error;

/// Why a word or sign of sequences was not expanded.
#[derive(Clone, Copy, PartialEq, Eq, Debug, Error)]
pub enum SeqFault {
    /// The formula would have more than `MOST_NODES` nodes, or more than `GREATEST_HEIGHT` on some way down.
    #[error("the formula is too large")]
    TooLarge,
    #[error("out of memory")]
    Memory,
}

impl From<bk_io::Memory> for SeqFault {
    ghost from_gives = { λ _ fault. fault ≡ Memory };

    fn from(_: bk_io::Memory) -> Self {
        SeqFault::Memory
    }
}
