// What stands between a bracket and the sign that closes it: a term, or several with dividers between.

ghost use Rattle.std.specs.Prelude.{◌≡◌};
ghost use Rattle.bk_raw.specs.Trees.RawTree.{RawTree};
ghost use Rattle.bk_p_expr.specs.Openings.{divider_in, form_of, placed, sign_of};
ghost use Rattle.bk_p_expr.specs.Pieces.{IsPiece, between_node};

use crate::front::begins;
use crate::piece::{Between, Piece};
use bk_form::Token;
use bk_ops::sign;

/// What stands between terms in parentheses.
#[derive(Clone, Copy)]
pub(crate) enum Divider {
    Comma,
    Semicolon,
}

impl Divider {
    pub(crate) fn sign(self) -> u16
        ensures { result ≡ sign_of self }
    {
        match self {
            Divider::Comma => sign::COMMA,
            Divider::Semicolon => sign::SEMICOLON,
        }
    }

    /// What is made of the terms beside it.
    pub(crate) fn form(self) -> Between
        ensures { between_node result ≡ form_of self }
    {
        match self {
            Divider::Comma => Between::Pair,
            Divider::Semicolon => Between::Composition,
        }
    }
}

/// What may stand inside.
#[derive(Clone, Copy)]
pub(crate) enum Inside {
    /// One term.
    Term,
    /// The arguments of a function: a term, or several with commas between.
    Arguments,
    /// What parentheses hold that begin a term at this byte: a term, or several with commas or semicolons between.
    Parentheses(usize),
}

impl Inside {
    /// The divider in front, if it may stand there.
    pub(crate) fn divider(self, tokens: &[Token]) -> Option<Divider>
        ensures { result ≡ divider_in self tokens.now }
    {
        match self {
            Inside::Term => None,
            Inside::Arguments => begins(tokens, sign::COMMA).then_some(Divider::Comma),
            Inside::Parentheses(_) => {
                if begins(tokens, sign::COMMA) {
                    return Some(Divider::Comma);
                }
                begins(tokens, sign::SEMICOLON).then_some(Divider::Semicolon)
            }
        }
    }

    /// Several terms with dividers between, as they stand there.
    pub(crate) fn placed(self, piece: Piece) -> Piece
        ensures { (tree : RawTree) → IsPiece tree piece → IsPiece (placed self tree) result }
    {
        match self {
            Inside::Parentheses(at) => piece.moved(at),
            _ => piece,
        }
    }
}
