//! The words of the notation, at hand.
ghost use Rattle.std.specs.Prelude.{◌≡◌, map};
ghost use Rattle.std.specs.List.{range_with_len};
ghost use Rattle.bk_ops.specs.Rows.{number_of, text_of};
ghost use Rattle.bk_ops.specs.Words.{word_texts};
ghost use Rattle.bk_lex.specs.Lexis.{word_number};

use bk_ops::{OpRow, find, words};

/// The words of the notation, which are no names.
#[derive(Drop)]
pub struct WordTable {
    rows: [OpRow; 95],
    ghost texts: { map text_of rows ≡ word_texts },
    ghost numbers: { map number_of rows ≡ range_with_len 57 95 },
}

impl WordTable {
    pub fn new() -> WordTable {
        WordTable { rows: words() }
    }

    /// The number of the word that a text is.
    pub fn number(&self, text: &[u8]) -> Option<u16>
        ensures { result ≡ word_number text.now }
    {
        find(&self.rows, text)
    }
}
