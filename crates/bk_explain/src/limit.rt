//! Limits.

use crate::say::{say, say_number};
use bk_io::Memory;
use bk_limits::{
    GREATEST_HEIGHT, GREATEST_TREE_HEIGHT, MOST_BYTES, MOST_CALLS, MOST_CELLS, MOST_COMPONENTS,
    MOST_INSTRUCTIONS, MOST_NAMES, MOST_NODES, MOST_NODES_TOGETHER, MOST_OBLIGATIONS, MOST_OPEN,
    MOST_RULES, MOST_TOKENS,
};

/// What the limit with this number counts, and the greatest number.
pub(crate) fn say_limit(words: &mut Vec<u8>, number: u8) -> Result<(), Memory> {
    match number {
        1 => say_most(words, MOST_BYTES as u64, "bytes of a file"),
        2 => say_most(words, MOST_TOKENS as u64, "tokens of a file"),
        3 => say_most(
            words,
            MOST_OPEN as u64,
            "brackets, or block words, open at one place",
        ),
        4 => say_most(words, MOST_COMPONENTS as u64, "components"),
        5 => say_most(words, MOST_NAMES as u64, "names that a component declares"),
        6 | 13 => say_size(words),
        7 => say_most(words, MOST_OBLIGATIONS, "obligations"),
        8 => say_most(words, MOST_RULES as u64, "rules of a script"),
        9 => say_most(words, MOST_INSTRUCTIONS, "instructions"),
        10 => say_most(
            words,
            MOST_CELLS as u64,
            "memory cells, and each name has to fit an image",
        ),
        11 => say_most(words, MOST_CALLS as u64, "calls"),
        12 => say_most(
            words,
            GREATEST_TREE_HEIGHT as u64,
            "nodes from the root of a syntax tree down to a leaf",
        ),
        14 => say_most(
            words,
            MOST_NODES_TOGETHER,
            "nodes of all obligations together",
        ),
        _ => say(words, "a limit is exceeded\n"),
    }
}

fn say_most(words: &mut Vec<u8>, greatest: u64, counted: &str) -> Result<(), Memory> {
    say(words, "there may be at most ")?;
    say_number(words, greatest as usize)?;
    say(words, " ")?;
    say(words, counted)?;
    say(words, "\n")
}

// The size of an obligation.
fn say_size(words: &mut Vec<u8>) -> Result<(), Memory> {
    say(words, "an obligation may have at most ")?;
    say_number(words, MOST_NODES as usize)?;
    say(words, " nodes, and at most ")?;
    say_number(words, GREATEST_HEIGHT as usize)?;
    say(words, " from its root down to a leaf\n")
}
