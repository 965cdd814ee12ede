// Terms as they are written.

use crate::operator::{Constant, InfixOp, WordOp};
use crate::written::RawType;
use bk_io::Text;
use std::marker::Model;

/// A term as it is written. Clauses see the mathematical tree; match on `&term.node`.
#[cycle(term)]
#[derive(Drop)]
pub struct RawTerm {
    /// The byte of the text where the term's first token starts. Parentheses around the whole term are not counted,
    /// those of a pair and of a composition are.
    pub at: usize,
    pub node: RawNode,
}

/// What a term is, with its parts in order.
#[cycle(term)]
#[derive(Drop)]
pub enum RawNode {
    /// `x`.
    Name(Text),
    /// `x$n`.
    LevelName(Text, u32),
    /// `$n`, in printed formulas.
    BoundName(u32),
    /// A number, perhaps with a minus sign directly before it.
    Number(i128),
    /// A constant word.
    Constant(Constant),
    /// A word before one term in parentheses.
    Word(WordOp, Box<RawTerm>),
    /// `-a`.
    Negative(Box<RawTerm>),
    /// An operator between two terms.
    Infix(InfixOp, Box<RawTerm>, Box<RawTerm>),
    /// `r~`.
    Inverse(Box<RawTerm>),
    /// `r[s]`.
    Image(Box<RawTerm>, Box<RawTerm>),
    /// `f(x)`.
    Apply(Box<RawTerm>, Box<RawTerm>),
    /// `(r ; s)`.
    Composition(Box<RawTerm>, Box<RawTerm>),
    /// `(a, b)`.
    Pair(Box<RawTerm>, Box<RawTerm>),
    /// `{}`.
    EmptySet,
    /// `{a, b, c}`.
    Extension(Vec<RawTerm>),
    /// `{x, y | p}`.
    Comprehension(Vec<RawName>, Box<RawTerm>),
    /// `%(x, y).(p | e)`.
    Lambda(Vec<RawName>, Box<RawTerm>, Box<RawTerm>),
    /// `!(x, y).(p)`.
    ForAll(Vec<RawName>, Box<RawTerm>),
    /// `#(x, y).(p)`.
    Exists(Vec<RawName>, Box<RawTerm>),
    /// `{:T}`, in printed formulas: the empty set of this type.
    TypedEmpty(RawType),
    /// `!($1:T,$2:U).(p)`, in printed formulas.
    TypedForAll(Vec<RawBound>, Box<RawTerm>),
    /// `#($1:T,$2:U).(p)`, in printed formulas.
    TypedExists(Vec<RawBound>, Box<RawTerm>),
    /// `{$1:d,$2:e | p}`, in printed formulas.
    RangedComprehension(Vec<RawRange>, Box<RawTerm>),
    /// `%($1:d,$2:e).(p | e)`, in printed formulas.
    RangedLambda(Vec<RawRange>, Box<RawTerm>, Box<RawTerm>),
}

/// A name where it is declared, and the byte where it stands.
#[derive(Drop)]
pub struct RawName {
    pub at: usize,
    pub text: Text,
}

/// `$number:T`: a bound variable with its type, and the byte where it stands.
#[derive(Drop)]
pub struct RawBound {
    pub at: usize,
    pub number: u32,
    pub ty: RawType,
}

/// `$number:d`: a bound variable with the set that it ranges over, and the byte where it stands.
#[cycle(term)]
#[derive(Drop)]
pub struct RawRange {
    pub at: usize,
    pub number: u32,
    pub range: RawTerm,
}

impl Model for RawTerm {
    ghost use Rattle.bk_raw.specs.Trees.RawTree.{RawTree, tree_size};
    ghost use Rattle.bk_raw.specs.Codes.RawCodes.{coded_tree};

    ghost Value = { RawTree };

    ghost coded = { coded_tree };

    ghost use Rattle.bk_raw.specs.Codes.RawView.{tree_of};

    ghost view = { λ t. tree_of t.at t.node };

    ghost size = { tree_size };

    ghost use Rattle.bk_raw.specs.Codes.RawFalls.{node_falls};

    ghost size_decreases = { λ t h. node_falls t.at t.node };
}
