//! A row of a table of operators, and the search of a table.

ghost use Rattle.std.specs.Prelude.{◌≡◌, ◌≤◌, take};

/// The level of a row that is no binary operator.
pub const NO_OPERATOR: u8 = 255;

/// A sign or a word of the notation.
#[derive(Clone, Copy)]
pub struct OpRow {
    /// The text, in the first `len` bytes.
    pub text: [u8; 20],
    pub len: u8,
    /// The row's number in the one table of signs and words.
    pub op: u16,
    /// How tightly it binds as a binary operator, the loosest being 0, or [`NO_OPERATOR`].
    pub level: u8,
    ghost short: { len ≤ 20 },
}

impl OpRow {
    /// The row's text without what fills it up.
    pub fn text(&self) -> &[u8]
        ensures { result.now ≡ take self.now.len self.now.text }
    {
        &self.text[..self.len as usize]
    }
}
