//! What the number of a kind of pattern stands for.

ghost use Rattle.std.specs.Prelude.{◌≡◌, slice_get, unwrap_or};
ghost use Rattle.bk_laws.specs.declared.kind.Kind.TheVariants.{BTrue};
ghost use Rattle.bk_laws.specs.Tables.{kinds, kind_of};

use bk_form::{BinOp, UnOp};

/// What a pattern is. Its two numbers are those of a [`bk_ops::Pat`].
#[derive(Clone, Copy)]
pub enum Kind {
    /// The letter whose number is the first one.
    Letter,
    /// The same, for a letter that stands for an empty set.
    EmptyLetter,
    /// The number that is the first one.
    Number,
    /// `btrue`.
    BTrue,
    /// `bfalse`.
    BFalse,
    /// `TRUE`.
    True,
    /// `FALSE`.
    False,
    /// `NATURAL`.
    Natural,
    /// `NATURAL1`.
    Natural1,
    /// An operator on the pattern of the first number.
    One(UnOp),
    /// An operator on the patterns of both numbers.
    Two(BinOp),
}

/// The kind of this number, as in [`crate::op`], and `BTrue` for a number past the last.
pub fn kind_of(op: u16) -> Kind
    ensures { result ≡ kind_of op }
{
    kind_in(&kinds(), op)
}

// The item of this number, and `BTrue` past the end.
fn kind_in(all: &[Kind], op: u16) -> Kind
    ensures { result ≡ unwrap_or (slice_get all.now op) BTrue }
{
    match all.get(usize::from(op)) {
        Some(kind) => *kind,
        None => Kind::BTrue,
    }
}

// The kinds in the order of their numbers.
fn kinds() -> [Kind; 58]
    ensures { result ≡ kinds }
{
    [
        Kind::Letter,
        Kind::EmptyLetter,
        Kind::Number,
        Kind::BTrue,
        Kind::BFalse,
        Kind::True,
        Kind::False,
        Kind::Natural,
        Kind::Natural1,
        Kind::One(UnOp::Not),
        Kind::One(UnOp::BoolOf),
        Kind::One(UnOp::Neg),
        Kind::One(UnOp::Card),
        Kind::One(UnOp::Min),
        Kind::One(UnOp::Max),
        Kind::One(UnOp::Dom),
        Kind::One(UnOp::Ran),
        Kind::One(UnOp::Id),
        Kind::One(UnOp::Inverse),
        Kind::One(UnOp::Single),
        Kind::One(UnOp::Pow),
        Kind::One(UnOp::Pow1),
        Kind::Two(BinOp::And),
        Kind::Two(BinOp::Or),
        Kind::Two(BinOp::Imp),
        Kind::Two(BinOp::Iff),
        Kind::Two(BinOp::Eq),
        Kind::Two(BinOp::Lt),
        Kind::Two(BinOp::Le),
        Kind::Two(BinOp::In),
        Kind::Two(BinOp::Relations),
        Kind::Two(BinOp::PartialFunctions),
        Kind::Two(BinOp::TotalFunctions),
        Kind::Two(BinOp::PartialInjections),
        Kind::Two(BinOp::TotalInjections),
        Kind::Two(BinOp::PartialSurjections),
        Kind::Two(BinOp::TotalSurjections),
        Kind::Two(BinOp::Bijections),
        Kind::Two(BinOp::Union),
        Kind::Two(BinOp::Inter),
        Kind::Two(BinOp::Minus),
        Kind::Two(BinOp::Times),
        Kind::Two(BinOp::DomRes),
        Kind::Two(BinOp::RanRes),
        Kind::Two(BinOp::DomSub),
        Kind::Two(BinOp::RanSub),
        Kind::Two(BinOp::Over),
        Kind::Two(BinOp::Maps),
        Kind::Two(BinOp::Range),
        Kind::Two(BinOp::Add),
        Kind::Two(BinOp::Sub),
        Kind::Two(BinOp::Mul),
        Kind::Two(BinOp::Div),
        Kind::Two(BinOp::Mod),
        Kind::Two(BinOp::Power),
        Kind::Two(BinOp::Image),
        Kind::Two(BinOp::Apply),
        Kind::Two(BinOp::Comp),
    ]
}
