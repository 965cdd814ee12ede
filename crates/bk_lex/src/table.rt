// The signs and words, at hand.

ghost use Rattle.std.specs.Prelude.{◌≡◌, map};
ghost use Rattle.std.specs.List.{range_with_len};
ghost use Rattle.bk_ops.specs.Rows.{number_of, text_of};
ghost use Rattle.bk_ops.specs.Signs.{sign_texts};
ghost use Rattle.bk_ops.specs.Words.{word_texts};
ghost use Rattle.bk_lex.specs.Lexis.{sign_number, word_number};

use bk_ops::{OpRow, find, signs, words};

/// The signs and words.
#[derive(Drop)]
pub(crate) struct Tables {
    signs: [OpRow; 57],
    words: [OpRow; 95],
    ghost sign_texts: { map text_of signs ≡ sign_texts },
    ghost sign_numbers: { map number_of signs ≡ range_with_len 0 57 },
    ghost word_texts: { map text_of words ≡ word_texts },
    ghost word_numbers: { map number_of words ≡ range_with_len 57 95 },
}

impl Tables {
    pub(crate) fn new() -> Tables {
        Tables {
            signs: signs(),
            words: words(),
        }
    }

    /// The number of the sign with the text.
    pub(crate) fn sign_number(&self, text: &[u8]) -> Option<u16>
        ensures { result ≡ sign_number text.now }
    {
        find(&self.signs, text)
    }

    /// The number of the word with the text.
    pub(crate) fn word_number(&self, text: &[u8]) -> Option<u16>
        ensures { result ≡ word_number text.now }
    {
        find(&self.words, text)
    }
}
