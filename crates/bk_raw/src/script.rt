// Proof files as they are written.

use crate::term::{RawName, RawTerm};
use crate::written::RawType;
use bk_io::Text;
use std::marker::Model;

/// The word of a rule of proof.
#[derive(Drop)]
pub enum RuleWord {
    /// `hyp`.
    Hyp,
    /// `true`.
    True,
    /// `same`.
    Same,
    /// `eval`.
    Eval,
    /// `false`.
    False,
    /// `absurd`.
    Absurd,
    /// `and`.
    And,
    /// `iff`.
    Iff,
    /// `imp`.
    Imp,
    /// `not`.
    Not,
    /// `left`.
    Left,
    /// `right`.
    Right,
    /// `or`.
    Or,
    /// `contra`.
    Contra,
    /// `fix`.
    Fix,
    /// `use`.
    UseTerms,
    /// `split`.
    Split,
    /// `cases`.
    Cases,
    /// `apply`.
    Apply,
    /// `inst`.
    Inst,
    /// `open`.
    OpenSome,
    /// `cut`.
    Cut,
    /// `case`.
    Case,
    /// `drop`.
    Drop,
    /// `eq`.
    Eq,
    /// `qe`.
    Qe,
    /// `law`.
    Law,
    /// `wal`.
    Wal,
    /// `type`.
    TypeOf,
    /// `neg`.
    Neg,
    /// `mem`.
    Mem,
    /// `val`.
    Val,
    /// `ext`.
    Ext,
    /// `sub`.
    Sub,
    /// `ex`.
    Ex,
    /// `pair`.
    Pair,
    /// `elems`.
    Elems,
    /// `interval`.
    Interval,
    /// `induct`.
    Induct,
    /// `poly`.
    Poly,
    /// `lin`.
    Lin,
}

/// A place in a sequent: a path of child numbers into the goal, or into the hypothesis of a number. Both count from 1; a
/// number may be 0 or too large for anything to have it.
#[derive(Drop)]
pub enum RawPlace {
    /// `goal`, and the path.
    Goal(Vec<u128>),
    /// `hyp i`, and the path.
    Hyp(u128, Vec<u128>),
}

/// `m * k`: a multiplier, and the number of a fact.
#[derive(Drop)]
pub struct RawMultiple {
    pub multiplier: i128,
    pub fact: u128,
}

/// A line of a certificate. Facts number from 1: those of the hypotheses and of the goal first, then one for each line.
#[derive(Drop)]
pub enum RawLine {
    /// `m * k + ..`.
    Sum(Vec<RawMultiple>),
    /// `k / g`: a fact's number, and what it is divided by.
    Quotient(u128, u128),
}

/// `x : T`: a name with its type.
#[derive(Drop)]
pub struct RawTyped {
    pub name: RawName,
    pub ty: RawType,
}

/// A part of a rule.
#[derive(Drop)]
pub enum RulePart {
    /// The number of a hypothesis.
    Number(u128),
    /// A term.
    Term(RawTerm),
    /// Terms with commas between.
    Terms(Vec<RawTerm>),
    /// A place in the sequent.
    Place(RawPlace),
    /// No place, where there may be one.
    NoPlace,
    /// Names with their types.
    Typed(Vec<RawTyped>),
    /// The name of a law, and the terms that it takes.
    Law(Text, Vec<RawTerm>),
    /// The numbers of hypotheses, and the lines of a certificate.
    Certificate(Vec<u128>, Vec<RawLine>),
}

/// A rule of proof: its word, the byte of the text where it starts, and its parts in order.
#[derive(Drop)]
pub struct RawRule {
    pub word: RuleWord,
    pub at: usize,
    pub parts: Vec<RulePart>,
}

/// A part of a script's name.
#[derive(Drop)]
pub enum NamePart {
    /// The letters of a name or of a word.
    Letters(Text),
    /// A number.
    Numeral(u128),
}

/// A script of proof as it is written. Clauses see the mathematical script.
#[derive(Drop)]
pub struct RawScript {
    /// The byte of the text where its first token starts.
    pub at: usize,
    /// The byte where its name starts.
    pub name_at: usize,
    /// The name, which dots divide.
    pub name: Vec<NamePart>,
    pub rules: Vec<RawRule>,
}

impl Model for RawRule {
    ghost use Rattle.std.specs.Prelude.{map};
    ghost use Rattle.bk_raw.specs.Trees.ScriptTree.{RawRule};
    ghost use Rattle.bk_raw.specs.Codes.ScriptCodes.{coded_rule};
    ghost use Rattle.bk_raw.specs.Codes.ScriptView.{part_of};

    ghost Value = { RawRule };

    ghost coded = { coded_rule };

    ghost view = { λ r. record { word = r.word; at = r.at; parts = map part_of r.parts.items } };
}

impl Model for RawScript {
    ghost use Rattle.bk_raw.specs.Trees.ScriptTree.{RawScript};
    ghost use Rattle.bk_raw.specs.Codes.ScriptCodes.{coded_script};

    ghost Value = { RawScript };

    ghost coded = { coded_script };

    ghost view = { λ s. record { at = s.at; name_at = s.name_at; name = s.name.items; rules = s.rules.items } };
}
