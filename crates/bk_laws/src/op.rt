//! What a pattern is, as the number in [`bk_ops::Pat::op`]: nine kinds without an operator, the operators
//! on the pattern of the first number, and those on the patterns of both numbers. The operators are named as in
//! [`bk_form::UnOp`] and [`bk_form::BinOp`].

/// The letter whose number is the first one.
pub const LETTER: u16 = 0;

/// The same, for a letter that stands for an empty set.
pub const EMPTY_LETTER: u16 = 1;

/// The number that is the first one.
pub const NUMBER: u16 = 2;

/// `btrue`.
pub const BTRUE: u16 = 3;

/// `bfalse`.
pub const BFALSE: u16 = 4;

/// `TRUE`.
pub const TRUE: u16 = 5;

/// `FALSE`.
pub const FALSE: u16 = 6;

/// `NATURAL`.
pub const NATURAL: u16 = 7;

/// `NATURAL1`.
pub const NATURAL1: u16 = 8;

pub const NOT: u16 = 9;

pub const BOOL_OF: u16 = 10;

pub const NEG: u16 = 11;

pub const CARD: u16 = 12;

pub const MIN: u16 = 13;

pub const MAX: u16 = 14;

pub const DOM: u16 = 15;

pub const RAN: u16 = 16;

pub const ID: u16 = 17;

pub const INVERSE: u16 = 18;

pub const SINGLE: u16 = 19;

pub const POW: u16 = 20;

pub const POW1: u16 = 21;

pub const AND: u16 = 22;

pub const OR: u16 = 23;

pub const IMP: u16 = 24;

pub const IFF: u16 = 25;

pub const EQ: u16 = 26;

pub const LT: u16 = 27;

pub const LE: u16 = 28;

pub const IN: u16 = 29;

pub const RELATIONS: u16 = 30;

pub const PARTIAL_FUNCTIONS: u16 = 31;

pub const TOTAL_FUNCTIONS: u16 = 32;

pub const PARTIAL_INJECTIONS: u16 = 33;

pub const TOTAL_INJECTIONS: u16 = 34;

pub const PARTIAL_SURJECTIONS: u16 = 35;

pub const TOTAL_SURJECTIONS: u16 = 36;

pub const BIJECTIONS: u16 = 37;

pub const UNION: u16 = 38;

pub const INTER: u16 = 39;

pub const MINUS: u16 = 40;

pub const TIMES: u16 = 41;

pub const DOM_RES: u16 = 42;

pub const RAN_RES: u16 = 43;

pub const DOM_SUB: u16 = 44;

pub const RAN_SUB: u16 = 45;

pub const OVER: u16 = 46;

pub const MAPS: u16 = 47;

pub const RANGE: u16 = 48;

pub const ADD: u16 = 49;

pub const SUB: u16 = 50;

pub const MUL: u16 = 51;

pub const DIV: u16 = 52;

pub const MOD: u16 = 53;

pub const POWER: u16 = 54;

pub const IMAGE: u16 = 55;

pub const APPLY: u16 = 56;

pub const COMP: u16 = 57;
