//! What stands between two brackets.

/// What stands between two brackets, or the whole text.
#[derive(Clone, Copy)]
pub(crate) struct Group {
    /// The token that ends it: its closing bracket, or the number of all tokens.
    pub(crate) end: usize,
    /// Whether lines are broken before its operators.
    pub(crate) is_broken: bool,
    /// How many blanks its further lines begin with.
    pub(crate) indent: usize,
}

/// How many blanks more the lines of a group begin with than those of the group around it.
pub(crate) const STEP: usize = 2;

/// Lines begin with at most so many blanks.
pub(crate) const MOST_INDENT: usize = 60;

impl Group {
    /// A group within this one that is so many bytes long.
    pub(crate) fn within(&self, end: usize, length: usize, width: usize) -> Group {
        let indent = self.indent.saturating_add(STEP).min(MOST_INDENT);
        Group {
            end,
            is_broken: self.is_broken && indent.saturating_add(length) > width,
            indent,
        }
    }
}
