//! Why a text has no tokens.

ghost use Rattle.std.specs.Prelude.{◌≡◌};
ghost use Rattle.bk_lex.specs.declared.fault.LexFault.TheVariants.{Memory as NoMemory};

use bk_io::Memory;
use std::alloc::{AllocError, AllocFailed};
use thiserror::Error;

/// Why a text has no tokens, and the byte of the text where it is at fault.
#[derive(Clone, Copy, PartialEq, Eq, Debug, Error)]
pub enum LexFault {
    /// The bytes are no UTF-8: the longest front of them that is ends here.
    #[error("no UTF-8 at byte {0}")]
    NotUtf8(usize),
    /// A character that begins no token, blank or comment.
    #[error("a character that begins nothing at byte {0}")]
    BadChar(usize),
    /// A comment that is not closed.
    #[error("an open comment at byte {0}")]
    OpenComment(usize),
    /// A number above 2^127 - 1, or a name whose number is not below 2^32.
    #[error("a number that is too large at byte {0}")]
    NumberTooWide(usize),
    /// The token that would be the 1000001st.
    #[error("too many tokens at byte {0}")]
    Limit(usize),
    #[error("out of memory")]
    Memory,
}

impl From<Memory> for LexFault {
    ghost from_gives = { λ _ fault. fault ≡ NoMemory };

    fn from(_: Memory) -> Self {
        LexFault::Memory
    }
}

impl From<AllocError> for LexFault {
    ghost from_gives = { λ _ fault. fault ≡ NoMemory };

    fn from(_: AllocError) -> Self {
        LexFault::Memory
    }
}

impl<T: Drop> From<AllocFailed<T>> for LexFault {
    ghost from_gives = { λ _ fault. fault ≡ NoMemory };

    fn from(_: AllocFailed<T>) -> Self {
        LexFault::Memory
    }
}
