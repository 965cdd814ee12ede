//! What a task answers.

use bk_verbs::{Status, Stop};

/// What is to be written, and how the program then ends.
#[derive(Drop)]
pub(crate) enum Answer {
    /// A text and the status.
    Whole(Vec<u8>, Status),
    /// A stop, whose line comes first, and what it means.
    Explained(Stop, Vec<u8>),
}
