// Substitutions as they are written.

use crate::term::{RawName, RawTerm};
use std::marker::Model;

/// A substitution as it is written. Clauses see the mathematical tree; match on `&sub.node`.
#[cycle(substitution)]
#[derive(Drop)]
pub struct RawSub {
    /// The byte of the text where the substitution's first token starts.
    pub at: usize,
    pub node: RawSubNode,
}

/// What a substitution is, with its parts in order.
#[cycle(substitution)]
#[derive(Drop)]
pub enum RawSubNode {
    /// `skip`.
    Skip,
    /// `x, y := e, f`.
    Assign(Vec<RawName>, Vec<RawTerm>),
    /// `f(x) := e`.
    AssignAt(RawName, RawTerm, RawTerm),
    /// `x :: e`.
    BecomesMember(RawName, RawTerm),
    /// `x, y :( p )`.
    BecomesSuch(Vec<RawName>, RawTerm),
    /// `x, y <-- op(e, f)`: the outputs, the operation that is called, and its arguments. Where there are no outputs, `x, y <--` is
    /// not written, where there are no arguments their parentheses are not.
    Call(Vec<RawName>, RawName, Vec<RawTerm>),
    /// `BEGIN s END`.
    Begin(Box<RawSub>),
    /// `PRE p THEN s END`.
    Pre(RawTerm, Box<RawSub>),
    /// `ASSERT p THEN s END`.
    Assert(RawTerm, Box<RawSub>),
    /// `IF p THEN s`, each `ELSIF q THEN t`, perhaps `ELSE u`, `END`.
    If(RawTerm, Box<RawSub>, Vec<RawBranch>, Option<Box<RawSub>>),
    /// `CHOICE s`, each `OR t`, `END`.
    Choice(Box<RawSub>, Vec<RawSub>),
    /// `SELECT p THEN s`, each `WHEN q THEN t`, perhaps `ELSE u`, `END`.
    Select(RawTerm, Box<RawSub>, Vec<RawBranch>, Option<Box<RawSub>>),
    /// `ANY x, y WHERE p THEN s END`.
    Any(Vec<RawName>, RawTerm, Box<RawSub>),
    /// `LET x, y BE p IN s END`, where `p` is `x = e & y = f`.
    Let(Vec<RawName>, RawTerm, Box<RawSub>),
    /// `VAR x, y IN s END`.
    Var(Vec<RawName>, Box<RawSub>),
    /// `WHILE p DO s INVARIANT i VARIANT v END`.
    While(RawTerm, Box<RawSub>, RawTerm, RawTerm),
    /// `s || t`.
    Parallel(Box<RawSub>, Box<RawSub>),
    /// `s ; t`.
    Sequence(Box<RawSub>, Box<RawSub>),
}

/// A further branch of IF or SELECT: its condition and what is done.
#[cycle(substitution)]
#[derive(Drop)]
pub struct RawBranch {
    pub condition: RawTerm,
    pub body: RawSub,
}

impl Model for RawSub {
    ghost use Rattle.bk_raw.specs.Trees.SubTree.{SubTree, sub_size};
    ghost use Rattle.bk_raw.specs.Codes.SubCodes.{coded_sub};

    ghost Value = { SubTree };

    ghost coded = { coded_sub };

    ghost use Rattle.bk_raw.specs.Codes.SubView.{sub_of};

    ghost view = { λ s. sub_of s.at s.node };

    ghost size = { sub_size };

    ghost use Rattle.bk_raw.specs.Codes.SubFalls.{sub_falls};

    ghost size_decreases = { λ s h. sub_falls s.at s.node };
}
