// The operators and the words of terms, as they are written.

use bk_raw::{Constant, InfixOp, WordOp};

// How tightly some operators bind, what they ask of the terms left and right of them, and the operators.
pub(crate) type Level = (u8, u8, u8, &'static [(&'static str, InfixOp)]);

// The operators between two terms, the loosest first. Two that ask no more than they bind on one side chain to that side.
pub(crate) const LEVELS: [Level; 10] = [
    (0, 3, 3, &[("<=>", InfixOp::Equivalent)]),
    (1, 1, 2, &[("=>", InfixOp::Implies)]),
    (2, 2, 3, &[("&", InfixOp::And), ("or", InfixOp::Or)]),
    (
        3,
        4,
        4,
        &[
            ("=", InfixOp::Equal),
            ("/=", InfixOp::NotEqual),
            ("<", InfixOp::Less),
            ("<=", InfixOp::AtMost),
            (">", InfixOp::Greater),
            (">=", InfixOp::AtLeast),
            (":", InfixOp::Member),
            ("/:", InfixOp::NotMember),
            ("<:", InfixOp::Subset),
            ("/<:", InfixOp::NotSubset),
            ("<<:", InfixOp::StrictSubset),
        ],
    ),
    (
        4,
        4,
        5,
        &[
            ("<->", InfixOp::Relations),
            ("+->", InfixOp::PartialFunctions),
            ("-->", InfixOp::TotalFunctions),
            (">+>", InfixOp::PartialInjections),
            (">->", InfixOp::TotalInjections),
            ("+->>", InfixOp::PartialSurjections),
            ("-->>", InfixOp::TotalSurjections),
            (">->>", InfixOp::Bijections),
        ],
    ),
    (
        5,
        5,
        6,
        &[
            ("\\/", InfixOp::Union),
            ("/\\", InfixOp::Intersection),
            ("<|", InfixOp::DomainRestriction),
            ("|>", InfixOp::RangeRestriction),
            ("<<|", InfixOp::DomainSubtraction),
            ("|>>", InfixOp::RangeSubtraction),
            ("<+", InfixOp::Override),
            ("|->", InfixOp::Maplet),
            ("^", InfixOp::Concatenation),
            ("->", InfixOp::Prepend),
            ("<-", InfixOp::Append),
        ],
    ),
    (6, 7, 7, &[("..", InfixOp::Interval)]),
    (7, 7, 8, &[("+", InfixOp::Plus), ("-", InfixOp::Minus)]),
    (
        8,
        8,
        9,
        &[
            ("*", InfixOp::Times),
            ("/", InfixOp::Divide),
            ("mod", InfixOp::Mod),
        ],
    ),
    (9, 10, 9, &[("**", InfixOp::Power)]),
];

// The words before a term in parentheses.
pub(crate) const WORD_OPERATORS: [(&str, WordOp); 21] = [
    ("not", WordOp::Not),
    ("bool", WordOp::BoolOf),
    ("card", WordOp::Card),
    ("min", WordOp::Min),
    ("max", WordOp::Max),
    ("dom", WordOp::Dom),
    ("ran", WordOp::Ran),
    ("id", WordOp::Id),
    ("succ", WordOp::Succ),
    ("pred", WordOp::Pred),
    ("POW", WordOp::Pow),
    ("POW1", WordOp::Pow1),
    ("FIN", WordOp::Fin),
    ("FIN1", WordOp::Fin1),
    ("seq", WordOp::Seq),
    ("size", WordOp::Size),
    ("first", WordOp::First),
    ("last", WordOp::Last),
    ("front", WordOp::Front),
    ("tail", WordOp::Tail),
    ("rev", WordOp::Rev),
];

// The signs of sequences, which bind as `|->` does.
pub(crate) const SEQUENCE_SIGNS: [&str; 3] = ["^", "->", "<-"];

// The words that are terms by themselves.
pub(crate) const CONSTANTS: [(&str, Constant); 13] = [
    ("BOOL", Constant::Bool),
    ("TRUE", Constant::True),
    ("FALSE", Constant::False),
    ("INTEGER", Constant::Integer),
    ("NATURAL", Constant::Natural),
    ("NATURAL1", Constant::Natural1),
    ("INT", Constant::Int),
    ("NAT", Constant::Nat),
    ("NAT1", Constant::Nat1),
    ("MAXINT", Constant::MaxInt),
    ("MININT", Constant::MinInt),
    ("btrue", Constant::Btrue),
    ("bfalse", Constant::Bfalse),
];
