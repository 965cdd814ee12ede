// The tokens that operators and constant words are written as.

ghost use Rattle.std.specs.Prelude.{◌≡◌, ◌≢◌, MatchOption};
ghost use Rattle.bk_raw.specs.Trees.Operators.{infix_kind, word_kind, constant_kind, binding, is_of_sequences};

use crate::operator::{Constant, InfixOp, WordOp};
use bk_form::TokenKind;
use bk_ops::{sign, word};

impl InfixOp {
    /// The operator that the token is, if it is one.
    pub fn of(kind: &TokenKind) -> Option<InfixOp>
        ensures { MatchOption result ((o : InfixOp) → infix_kind o ≢ kind.now) (λ o. infix_kind o ≡ kind.now) }
    {
        match kind {
            TokenKind::Sign(op) => InfixOp::of_sign(*op),
            TokenKind::Word(op) => InfixOp::of_word(*op),
            _ => None,
        }
    }

    fn of_sign(op: u16) -> Option<InfixOp>
        ensures { MatchOption result ((o : InfixOp) → infix_kind o ≢ TokenKind.Sign op)
            (λ o. infix_kind o ≡ TokenKind.Sign op) }
    {
        match op {
            sign::EQUIVALENT => Some(InfixOp::Equivalent),
            sign::IMPLIES => Some(InfixOp::Implies),
            sign::AND => Some(InfixOp::And),
            sign::EQUAL => Some(InfixOp::Equal),
            sign::NOT_EQUAL => Some(InfixOp::NotEqual),
            sign::LESS => Some(InfixOp::Less),
            sign::AT_MOST => Some(InfixOp::AtMost),
            sign::GREATER => Some(InfixOp::Greater),
            sign::AT_LEAST => Some(InfixOp::AtLeast),
            sign::MEMBER => Some(InfixOp::Member),
            sign::NOT_MEMBER => Some(InfixOp::NotMember),
            sign::SUBSET => Some(InfixOp::Subset),
            sign::NOT_SUBSET => Some(InfixOp::NotSubset),
            sign::STRICT_SUBSET => Some(InfixOp::StrictSubset),
            sign::RELATIONS => Some(InfixOp::Relations),
            sign::PARTIAL_FUNCTIONS => Some(InfixOp::PartialFunctions),
            sign::TOTAL_FUNCTIONS => Some(InfixOp::TotalFunctions),
            sign::PARTIAL_INJECTIONS => Some(InfixOp::PartialInjections),
            sign::TOTAL_INJECTIONS => Some(InfixOp::TotalInjections),
            sign::PARTIAL_SURJECTIONS => Some(InfixOp::PartialSurjections),
            sign::TOTAL_SURJECTIONS => Some(InfixOp::TotalSurjections),
            sign::BIJECTIONS => Some(InfixOp::Bijections),
            sign::UNION => Some(InfixOp::Union),
            sign::INTERSECTION => Some(InfixOp::Intersection),
            sign::DOMAIN_RESTRICTION => Some(InfixOp::DomainRestriction),
            sign::RANGE_RESTRICTION => Some(InfixOp::RangeRestriction),
            sign::DOMAIN_SUBTRACTION => Some(InfixOp::DomainSubtraction),
            sign::RANGE_SUBTRACTION => Some(InfixOp::RangeSubtraction),
            sign::OVERRIDE => Some(InfixOp::Override),
            sign::MAPLET => Some(InfixOp::Maplet),
            sign::INTERVAL => Some(InfixOp::Interval),
            sign::PLUS => Some(InfixOp::Plus),
            sign::MINUS => Some(InfixOp::Minus),
            sign::TIMES => Some(InfixOp::Times),
            sign::DIVIDE => Some(InfixOp::Divide),
            sign::POWER => Some(InfixOp::Power),
            sign::CONCATENATION => Some(InfixOp::Concatenation),
            sign::PREPEND => Some(InfixOp::Prepend),
            sign::APPEND => Some(InfixOp::Append),
            _ => None,
        }
    }

    fn of_word(op: u16) -> Option<InfixOp>
        ensures { MatchOption result ((o : InfixOp) → infix_kind o ≢ TokenKind.Word op)
            (λ o. infix_kind o ≡ TokenKind.Word op) }
    {
        match op {
            word::OR => Some(InfixOp::Or),
            word::MOD => Some(InfixOp::Mod),
            _ => None,
        }
    }
}

impl WordOp {
    /// The word that the token is, if it is one that stands before a term in parentheses.
    pub fn of(kind: &TokenKind) -> Option<WordOp>
        ensures { MatchOption result ((o : WordOp) → word_kind o ≢ kind.now) (λ o. word_kind o ≡ kind.now) }
    {
        let TokenKind::Word(op) = kind else {
            return None;
        };
        match *op {
            word::NOT => Some(WordOp::Not),
            word::BOOL_OF => Some(WordOp::BoolOf),
            word::CARD => Some(WordOp::Card),
            word::MIN => Some(WordOp::Min),
            word::MAX => Some(WordOp::Max),
            word::DOM => Some(WordOp::Dom),
            word::RAN => Some(WordOp::Ran),
            word::ID => Some(WordOp::Id),
            word::SUCC => Some(WordOp::Succ),
            word::PRED => Some(WordOp::Pred),
            word::POW => Some(WordOp::Pow),
            word::POW1 => Some(WordOp::Pow1),
            word::FIN => Some(WordOp::Fin),
            word::FIN1 => Some(WordOp::Fin1),
            word::SEQ => Some(WordOp::Seq),
            word::SIZE => Some(WordOp::Size),
            word::FIRST => Some(WordOp::First),
            word::LAST => Some(WordOp::Last),
            word::FRONT => Some(WordOp::Front),
            word::TAIL => Some(WordOp::Tail),
            word::REV => Some(WordOp::Rev),
            _ => None,
        }
    }
}

impl Constant {
    /// The constant word that the token is, if it is one.
    pub fn of(kind: &TokenKind) -> Option<Constant>
        ensures { MatchOption result ((c : Constant) → constant_kind c ≢ kind.now) (λ c. constant_kind c ≡ kind.now) }
    {
        let TokenKind::Word(op) = kind else {
            return None;
        };
        match *op {
            word::BOOL => Some(Constant::Bool),
            word::TRUE => Some(Constant::True),
            word::FALSE => Some(Constant::False),
            word::INTEGER => Some(Constant::Integer),
            word::NATURAL => Some(Constant::Natural),
            word::NATURAL1 => Some(Constant::Natural1),
            word::INT => Some(Constant::Int),
            word::NAT => Some(Constant::Nat),
            word::NAT1 => Some(Constant::Nat1),
            word::MAXINT => Some(Constant::MaxInt),
            word::MININT => Some(Constant::MinInt),
            word::BTRUE => Some(Constant::Btrue),
            word::BFALSE => Some(Constant::Bfalse),
            _ => None,
        }
    }
}

/// Whether the token is a sign or a word of sequences. Terms have them; components and scripts do not have them yet.
pub fn is_of_sequences(kind: &TokenKind) -> bool
    ensures { result ≡ is_of_sequences kind.now }
{
    match kind {
        TokenKind::Sign(op) => matches!(*op, sign::CONCATENATION | sign::PREPEND | sign::APPEND),
        TokenKind::Word(op) => matches!(
            *op,
            word::SEQ | word::SIZE | word::FIRST | word::LAST | word::FRONT | word::TAIL | word::REV
        ),
        _ => false,
    }
}

/// How tightly an operator binds, the loosest being 0, and how tightly the terms left and right of it bind at least.
#[derive(Clone, Copy, PartialEq)]
pub struct Strengths {
    pub own: u8,
    pub left: u8,
    pub right: u8,
}

impl InfixOp {
    /// How tightly it binds.
    pub fn strengths(self) -> Strengths
        ensures own { result.own ≡ (binding self).own }
        ensures left { result.left ≡ (binding self).left }
        ensures right { result.right ≡ (binding self).right }
    {
        let (own, left, right) = match self {
            InfixOp::Equivalent => (0, 3, 3),
            InfixOp::Implies => (1, 1, 2),
            InfixOp::And | InfixOp::Or => (2, 2, 3),
            InfixOp::Relations
            | InfixOp::PartialFunctions
            | InfixOp::TotalFunctions
            | InfixOp::PartialInjections
            | InfixOp::TotalInjections
            | InfixOp::PartialSurjections
            | InfixOp::TotalSurjections
            | InfixOp::Bijections => (4, 4, 5),
            InfixOp::Union
            | InfixOp::Intersection
            | InfixOp::DomainRestriction
            | InfixOp::RangeRestriction
            | InfixOp::DomainSubtraction
            | InfixOp::RangeSubtraction
            | InfixOp::Override
            | InfixOp::Maplet
            | InfixOp::Concatenation
            | InfixOp::Prepend
            | InfixOp::Append => (5, 5, 6),
            InfixOp::Interval => (6, 7, 7),
            InfixOp::Plus | InfixOp::Minus => (7, 7, 8),
            InfixOp::Times | InfixOp::Divide | InfixOp::Mod => (8, 8, 9),
            InfixOp::Power => (9, 10, 9),
            InfixOp::Equal
            | InfixOp::NotEqual
            | InfixOp::Less
            | InfixOp::AtMost
            | InfixOp::Greater
            | InfixOp::AtLeast
            | InfixOp::Member
            | InfixOp::NotMember
            | InfixOp::Subset
            | InfixOp::NotSubset
            | InfixOp::StrictSubset => (3, 4, 4),
        };
        Strengths { own, left, right }
    }
}
