//! Why a text is not read.

use std::alloc::{AllocError, AllocFailed};
use thiserror::Error;

/// Why no formula and no type is read.
#[derive(Clone, Copy, PartialEq, Eq, Debug, Error)]
pub enum Unread {
    /// It is no text of one.
    #[error("a text that is not read")]
    Text,
    #[error("out of memory")]
    Memory,
}

impl From<bk_io::Memory> for Unread {
    fn from(_: bk_io::Memory) -> Self {
        Unread::Memory
    }
}

impl From<AllocError> for Unread {
    fn from(_: AllocError) -> Self {
        Unread::Memory
    }
}

impl<T: Drop> From<AllocFailed<T>> for Unread {
    fn from(_: AllocFailed<T>) -> Self {
        Unread::Memory
    }
}
