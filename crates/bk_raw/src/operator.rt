// The operators and constant words of terms.

/// An operator between two terms.
#[derive(Clone, Copy, PartialEq)]
pub enum InfixOp {
    /// `<=>`.
    Equivalent,
    /// `=>`.
    Implies,
    /// `&`.
    And,
    /// `or`.
    Or,
    /// `=`.
    Equal,
    /// `/=`.
    NotEqual,
    /// `<`.
    Less,
    /// `<=`.
    AtMost,
    /// `>`.
    Greater,
    /// `>=`.
    AtLeast,
    /// `:`.
    Member,
    /// `/:`.
    NotMember,
    /// `<:`.
    Subset,
    /// `/<:`.
    NotSubset,
    /// `<<:`.
    StrictSubset,
    /// `<->`.
    Relations,
    /// `+->`.
    PartialFunctions,
    /// `-->`.
    TotalFunctions,
    /// `>+>`.
    PartialInjections,
    /// `>->`.
    TotalInjections,
    /// `+->>`.
    PartialSurjections,
    /// `-->>`.
    TotalSurjections,
    /// `>->>`.
    Bijections,
    /// `\/`.
    Union,
    /// `/\`.
    Intersection,
    /// `<|`.
    DomainRestriction,
    /// `|>`.
    RangeRestriction,
    /// `<<|`.
    DomainSubtraction,
    /// `|>>`.
    RangeSubtraction,
    /// `<+`.
    Override,
    /// `|->`.
    Maplet,
    /// `..`.
    Interval,
    /// `+`.
    Plus,
    /// `-`.
    Minus,
    /// `*`.
    Times,
    /// `/`.
    Divide,
    /// `mod`.
    Mod,
    /// `**`.
    Power,
    /// `^`.
    Concatenation,
    /// `->`.
    Prepend,
    /// `<-`.
    Append,
}

/// A word that stands before one term in parentheses.
#[derive(Clone, Copy, PartialEq)]
pub enum WordOp {
    /// `not`.
    Not,
    /// `bool`.
    BoolOf,
    /// `card`.
    Card,
    /// `min`.
    Min,
    /// `max`.
    Max,
    /// `dom`.
    Dom,
    /// `ran`.
    Ran,
    /// `id`.
    Id,
    /// `succ`.
    Succ,
    /// `pred`.
    Pred,
    /// `POW`.
    Pow,
    /// `POW1`.
    Pow1,
    /// `FIN`.
    Fin,
    /// `FIN1`.
    Fin1,
    /// `seq`.
    Seq,
    /// `size`.
    Size,
    /// `first`.
    First,
    /// `last`.
    Last,
    /// `front`.
    Front,
    /// `tail`.
    Tail,
    /// `rev`.
    Rev,
}

/// A word that is a term by itself. The last two stand in printed formulas.
#[derive(Clone, Copy, PartialEq)]
pub enum Constant {
    /// `BOOL`.
    Bool,
    /// `TRUE`.
    True,
    /// `FALSE`.
    False,
    /// `INTEGER`.
    Integer,
    /// `NATURAL`.
    Natural,
    /// `NATURAL1`.
    Natural1,
    /// `INT`.
    Int,
    /// `NAT`.
    Nat,
    /// `NAT1`.
    Nat1,
    /// `MAXINT`.
    MaxInt,
    /// `MININT`.
    MinInt,
    /// `btrue`.
    Btrue,
    /// `bfalse`.
    Bfalse,
}
