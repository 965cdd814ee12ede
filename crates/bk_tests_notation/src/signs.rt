// Words of operators.

use bk_form::{BinOp, UnOp};

// An operator: on formulas, a quantifier over types, or a binder over so many ranges.
#[derive(Clone, Copy)]
pub(crate) enum Sign<'a> {
    One(UnOp),
    Two(BinOp),
    All(&'a str),
    Some(&'a str),
    Set(u32),
    Function(u32),
}

const ONE: &[(&str, UnOp)] = &[
    ("not", UnOp::Not),
    ("bool", UnOp::BoolOf),
    ("neg", UnOp::Neg),
    ("card", UnOp::Card),
    ("min", UnOp::Min),
    ("max", UnOp::Max),
    ("dom", UnOp::Dom),
    ("ran", UnOp::Ran),
    ("id", UnOp::Id),
    ("~", UnOp::Inverse),
    ("single", UnOp::Single),
    ("POW", UnOp::Pow),
    ("POW1", UnOp::Pow1),
];

const TWO: &[(&str, BinOp)] = &[
    ("&", BinOp::And),
    ("or", BinOp::Or),
    ("=>", BinOp::Imp),
    ("<=>", BinOp::Iff),
    ("=", BinOp::Eq),
    ("<", BinOp::Lt),
    ("<=", BinOp::Le),
    (":", BinOp::In),
    ("<->", BinOp::Relations),
    ("+->", BinOp::PartialFunctions),
    ("-->", BinOp::TotalFunctions),
    (">+>", BinOp::PartialInjections),
    (">->", BinOp::TotalInjections),
    ("+->>", BinOp::PartialSurjections),
    ("-->>", BinOp::TotalSurjections),
    (">->>", BinOp::Bijections),
    ("\\/", BinOp::Union),
    ("/\\", BinOp::Inter),
    ("minus", BinOp::Minus),
    ("times", BinOp::Times),
    ("<|", BinOp::DomRes),
    ("|>", BinOp::RanRes),
    ("<<|", BinOp::DomSub),
    ("|>>", BinOp::RanSub),
    ("<+", BinOp::Over),
    ("|->", BinOp::Maps),
    ("..", BinOp::Range),
    ("+", BinOp::Add),
    ("-", BinOp::Sub),
    ("*", BinOp::Mul),
    ("/", BinOp::Div),
    ("mod", BinOp::Mod),
    ("**", BinOp::Power),
    ("image", BinOp::Image),
    ("of", BinOp::Apply),
    (";", BinOp::Comp),
];

const RANGES: &[(&str, Sign<'static>)] = &[
    ("set1", Sign::Set(1)),
    ("set2", Sign::Set(2)),
    ("set3", Sign::Set(3)),
    ("fun1", Sign::Function(1)),
    ("fun2", Sign::Function(2)),
];

// The operator of a word.
pub(crate) fn operator(word: &str) -> Option<Sign<'_>> {
    if let Some(op) = two(word) {
        return Some(Sign::Two(op));
    }
    if let Some(op) = one(word) {
        return Some(Sign::One(op));
    }
    if let Some(types) = word.strip_prefix("!") {
        return Some(Sign::All(types));
    }
    if let Some(types) = word.strip_prefix("#") {
        return Some(Sign::Some(types));
    }
    over_ranges(word)
}

fn two(word: &str) -> Option<BinOp> {
    for (text, op) in TWO {
        if *text == word {
            return Some(*op);
        }
    }
    None
}

fn one(word: &str) -> Option<UnOp> {
    for (text, op) in ONE {
        if *text == word {
            return Some(*op);
        }
    }
    None
}

fn over_ranges(word: &str) -> Option<Sign<'_>> {
    for (text, sign) in RANGES {
        if *text == word {
            return Some(*sign);
        }
    }
    None
}
