//! The limits, each under one name for code and definitions, and the other numbers that the program is made for.
//!
//! A text, a development or a run that passes limit N is refused with that number. A definition has a constant from
//! `Rattle.bk_limits.specs.declared.TheConstants`.
#![tactic(auto)]

/// Limit 1: the most bytes of a file.
pub const MOST_BYTES: usize = 16_777_216;

/// Limit 2: the most tokens of a file.
pub const MOST_TOKENS: usize = 1_000_000;

/// Limit 3: the most brackets that are open at a token, and likewise the most block words without their END.
pub const MOST_OPEN: usize = 400;

/// Limit 4: the most lines of a project file that name a component.
pub const MOST_COMPONENTS: usize = 200;

/// Limit 5: the most names that a component declares.
pub const MOST_NAMES: usize = 2_000;

/// Limit 6: the most nodes of an obligation, its hypotheses and its goal together; and of each formula that is made of others.
pub const MOST_NODES: u64 = 200_000;

/// Limit 7: the most obligations of a development, each sequent counted.
pub const MOST_OBLIGATIONS: u64 = 20_000;

/// Limit 8: the most rules of a script.
pub const MOST_RULES: usize = 1_000_000;

/// Limit 9: the most instructions of an image.
pub const MOST_INSTRUCTIONS: u64 = 1_000_000;

/// Limit 10: the most memory cells of an image.
pub const MOST_CELLS: u32 = 1_000_000;

/// Limit 11: the most calls of a script, and the most lines of a transcript.
pub const MOST_CALLS: usize = 1_000_000;

/// Limit 12: the most nodes on one way down a tree that is read, a substitution or a component as a whole.
pub const GREATEST_TREE_HEIGHT: usize = 1_000;

/// Limit 13: the most nodes on one way down a formula of an obligation; and down each formula that is made of others.
pub const GREATEST_HEIGHT: u32 = 2_000;

/// Limit 14: the most nodes of all obligations of a development together.
pub const MOST_NODES_TOGETHER: u64 = 20_000_000;

/// Limit 15: the most states that a machine may be in after a line of a transcript.
pub const MOST_STATES: usize = 1_000;

/// Limit 16: the most steps of evaluation for one line of a transcript. (Limit 17 has no number here: `i128` is its width.)
pub const MOST_COST_OF_LINE: u64 = 10_000_000;

/// The fuel: how many steps the initialisation, and each call, may take where nothing else is asked for.
pub const FUEL: u64 = 1_000_000;

/// The fuel as it is written after `--fuel`.
pub const FUEL_TEXT: &str = "1000000";

/// The most fuel that may be asked for, in steps: 2 ^ 40.
pub const MOST_FUEL: u64 = 1_099_511_627_776;

/// The most variables of the sample.
pub const MOST_SAMPLE_VARIABLES: u64 = 40;

/// MAXINT where nothing else is said: integers of B0 lie between it and its negation.
pub const MAXINT: i64 = 2_147_483_647;

/// The greatest MAXINT that a development may have, 2 ^ 62 - 1: sums of two integers fit `i64`.
pub const GREATEST_MAXINT: i64 = 4_611_686_018_427_387_903;

/// How many numbers the machine's stack has room for.
pub const STACK_ROOM: usize = 1_000;

/// The most operators on two operands on one way down an executed expression. It needs as many numbers on the stack and one more,
/// above the index of an array that is written.
pub const MOST_OPERATORS: usize = 998;

/// The most enumerated sets of an image: 16 bits number the kinds of cells, of which two are those of integers and truth values.
pub const MOST_SETS: usize = 65_534;
