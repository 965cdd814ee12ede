// What a sink in memory took of each piece.

/// So many bytes that a sink took at once, at least one, and whether they were all of a piece.
#[derive(Clone, Copy, PartialEq, Eq)]
pub struct Part {
    pub count: usize,
    pub is_whole: bool,
}
