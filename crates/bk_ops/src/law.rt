//! Rows of laws.

/// A pattern in a list of them: a letter, a fixed formula, or an operator on one or two patterns of the list.
#[derive(Clone, Copy)]
pub struct Pat {
    /// What it is: a number of the crate that makes formulas of patterns.
    pub op: u16,
    /// The number of its first or only part in the list, or of the letter, or the written number.
    pub first: u16,
    /// The number of its second part in the list.
    pub second: u16,
}

/// A law: for all that is picked, left and right mean the same where they stand for the same kind of thing and the side
/// conditions are true.
#[derive(Clone, Copy)]
pub struct Law {
    /// The law's number.
    pub name: u16,
    /// How many formulas a use of the law picks: one for each letter.
    pub picks: u8,
    /// The numbers of the two patterns.
    pub left: u16,
    pub right: u16,
    /// The numbers of the patterns of the side conditions, of which the first `count` are meant.
    pub sides: [u16; 3],
    pub count: u8,
}
