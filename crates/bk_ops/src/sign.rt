//! The numbers of the signs, in the order of [`crate::signs`].

pub const AND: u16 = 0;

pub const IMPLIES: u16 = 1;

pub const EQUIVALENT: u16 = 2;

pub const FOR_ALL: u16 = 3;

pub const EXISTS: u16 = 4;

pub const EQUAL: u16 = 5;

pub const NOT_EQUAL: u16 = 6;

pub const LESS: u16 = 7;

pub const AT_MOST: u16 = 8;

pub const GREATER: u16 = 9;

pub const AT_LEAST: u16 = 10;

pub const MEMBER: u16 = 11;

pub const NOT_MEMBER: u16 = 12;

pub const SUBSET: u16 = 13;

pub const NOT_SUBSET: u16 = 14;

pub const STRICT_SUBSET: u16 = 15;

pub const UNION: u16 = 16;

pub const INTERSECTION: u16 = 17;

pub const MINUS: u16 = 18;

pub const TIMES: u16 = 19;

pub const MAPLET: u16 = 20;

pub const INTERVAL: u16 = 21;

pub const OPEN_BRACE: u16 = 22;

pub const CLOSE_BRACE: u16 = 23;

pub const OPEN_PAREN: u16 = 24;

pub const CLOSE_PAREN: u16 = 25;

pub const OPEN_BRACKET: u16 = 26;

pub const CLOSE_BRACKET: u16 = 27;

pub const RELATIONS: u16 = 28;

pub const PARTIAL_FUNCTIONS: u16 = 29;

pub const TOTAL_FUNCTIONS: u16 = 30;

pub const PARTIAL_INJECTIONS: u16 = 31;

pub const TOTAL_INJECTIONS: u16 = 32;

pub const PARTIAL_SURJECTIONS: u16 = 33;

pub const TOTAL_SURJECTIONS: u16 = 34;

pub const BIJECTIONS: u16 = 35;

pub const INVERSE: u16 = 36;

pub const DOMAIN_RESTRICTION: u16 = 37;

pub const RANGE_RESTRICTION: u16 = 38;

pub const DOMAIN_SUBTRACTION: u16 = 39;

pub const RANGE_SUBTRACTION: u16 = 40;

pub const OVERRIDE: u16 = 41;

pub const SEMICOLON: u16 = 42;

pub const COMMA: u16 = 43;

pub const DOT: u16 = 44;

pub const BAR: u16 = 45;

pub const PARALLEL: u16 = 46;

pub const LAMBDA: u16 = 47;

pub const PLUS: u16 = 48;

pub const DIVIDE: u16 = 49;

pub const POWER: u16 = 50;

pub const ASSIGN: u16 = 51;

pub const BECOMES_MEMBER: u16 = 52;

pub const OUTPUTS: u16 = 53;

pub const CONCATENATION: u16 = 54;

pub const PREPEND: u16 = 55;

pub const APPEND: u16 = 56;
