// The tokens that formulas and substitutions are read from.

ghost use Rattle.std.specs.Prelude.{◌≡◌, IfOk};

use bk_io::{Memory, Text};
use std::alloc::Global;

/// A token, and the bytes of the text that it stands on: from `start` up to `end`, without `end`.
#[derive(PartialEq, Eq, Debug, Drop)]
pub struct Token {
    pub kind: TokenKind,
    pub start: usize,
    pub end: usize,
}

/// What a token is.
#[derive(PartialEq, Eq, Debug, Drop)]
pub enum TokenKind {
    /// A name.
    Name(Text),
    /// `x$n`: a name and its level.
    LevelName(Text, u32),
    /// `$n`: a bound variable's number.
    BoundName(u32),
    /// A number.
    Number(i128),
    /// A sign, as its number in the table of operators.
    Sign(u16),
    /// A reserved word, as its number in the table of operators.
    Word(u16),
}

impl Token {
    /// The same token again.
    pub fn copy(&self, alloc: Global) -> Result<Token, Memory>
        ensures { IfOk result (λ t. t ≡ self.now) }
    {
        Ok(Token {
            kind: self.kind.copy(alloc)?,
            start: self.start,
            end: self.end,
        })
    }
}

impl TokenKind {
    /// The same kind again.
    pub fn copy(&self, alloc: Global) -> Result<TokenKind, Memory>
        ensures { IfOk result (λ k. k ≡ self.now) }
    {
        Ok(match self {
            TokenKind::Name(name) => TokenKind::Name(name.copy(alloc)?),
            TokenKind::LevelName(name, level) => TokenKind::LevelName(name.copy(alloc)?, *level),
            TokenKind::BoundName(number) => TokenKind::BoundName(*number),
            TokenKind::Number(value) => TokenKind::Number(*value),
            TokenKind::Sign(op) => TokenKind::Sign(*op),
            TokenKind::Word(op) => TokenKind::Word(*op),
        })
    }
}
