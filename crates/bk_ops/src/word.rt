//! The numbers of the words in use, in the order of [`crate::words`]. They follow those of the signs; among
//! the last ones stand those of reserved words.

pub const MACHINE: u16 = 57;

pub const REFINEMENT: u16 = 58;

pub const IMPLEMENTATION: u16 = 59;

pub const REFINES: u16 = 60;

pub const SETS: u16 = 61;

pub const CONSTANTS: u16 = 62;

pub const CONCRETE_CONSTANTS: u16 = 63;

pub const PROPERTIES: u16 = 64;

pub const VARIABLES: u16 = 65;

pub const ABSTRACT_VARIABLES: u16 = 66;

pub const CONCRETE_VARIABLES: u16 = 67;

pub const INVARIANT: u16 = 68;

pub const ASSERTIONS: u16 = 69;

pub const VALUES: u16 = 70;

pub const INITIALISATION: u16 = 71;

pub const OPERATIONS: u16 = 72;

pub const END: u16 = 73;

pub const BEGIN: u16 = 74;

pub const PRE: u16 = 75;

pub const THEN: u16 = 76;

pub const IF: u16 = 77;

pub const ELSIF: u16 = 78;

pub const ELSE: u16 = 79;

pub const SELECT: u16 = 80;

pub const WHEN: u16 = 81;

pub const CHOICE: u16 = 82;

pub const OR_BRANCH: u16 = 83;

pub const ANY: u16 = 84;

pub const WHERE: u16 = 85;

pub const LET: u16 = 86;

pub const BE: u16 = 87;

pub const IN: u16 = 88;

pub const VAR: u16 = 89;

pub const WHILE: u16 = 90;

pub const DO: u16 = 91;

pub const VARIANT: u16 = 92;

pub const ASSERT: u16 = 93;

pub const SKIP: u16 = 94;

pub const OR: u16 = 95;

pub const NOT: u16 = 96;

pub const MOD: u16 = 97;

pub const CARD: u16 = 98;

pub const MIN: u16 = 99;

pub const MAX: u16 = 100;

pub const DOM: u16 = 101;

pub const RAN: u16 = 102;

pub const ID: u16 = 103;

pub const SUCC: u16 = 104;

pub const PRED: u16 = 105;

pub const BOOL_OF: u16 = 106;

pub const BOOL: u16 = 107;

pub const TRUE: u16 = 108;

pub const FALSE: u16 = 109;

pub const INTEGER: u16 = 110;

pub const NATURAL: u16 = 111;

pub const NATURAL1: u16 = 112;

pub const INT: u16 = 113;

pub const NAT: u16 = 114;

pub const NAT1: u16 = 115;

pub const MAXINT: u16 = 116;

pub const MININT: u16 = 117;

pub const POW: u16 = 118;

pub const POW1: u16 = 119;

pub const FIN: u16 = 120;

pub const FIN1: u16 = 121;

pub const BTRUE: u16 = 122;

pub const BFALSE: u16 = 123;

pub const IMPORTS: u16 = 130;

pub const SEQ: u16 = 137;

pub const SIZE: u16 = 138;

pub const FIRST: u16 = 139;

pub const LAST: u16 = 140;

pub const FRONT: u16 = 141;

pub const TAIL: u16 = 142;

pub const REV: u16 = 143;
