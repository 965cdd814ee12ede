//! The laws of sets, as a table of numbers.

ghost use Rattle.std.specs.Prelude.{◌≡◌};
ghost use Rattle.bk_laws.specs.Tables.{rows_of};
ghost use Rattle.bk_laws_set.specs.Rows.{rows};

use bk_laws::{law, op, pattern};
use bk_ops::{Law, Pat};

// Patterns, each told by its number in the list, and laws over them.
#[derive(Drop)]
pub(crate) struct Table {
    pub(crate) patterns: &'static [Pat; 106],
    pub(crate) laws: &'static [Law; 40],
}

// The table.
pub(crate) fn all_laws() -> Table
    ensures { rows_of result.patterns.now result.laws.now ≡ rows }
{
    Table {
        patterns: &PATTERNS,
        laws: &LAWS,
    }
}

// After each pattern stands its number, and the formula with the letters a, b, c.
const PATTERNS: [Pat; 106] = [
    pattern!(op::LETTER, 0), // 0: a
    pattern!(op::LETTER, 1), // 1: b
    pattern!(op::LETTER, 2), // 2: c
    pattern!(op::UNION, 1, 2), // 3: b \/ c
    pattern!(op::IN, 0, 3), // 4: a : (b \/ c)
    pattern!(op::IN, 0, 1), // 5: a : b
    pattern!(op::IN, 0, 2), // 6: a : c
    pattern!(op::OR, 5, 6), // 7: (a : b) or (a : c)
    pattern!(op::INTER, 1, 2), // 8: b /\ c
    pattern!(op::IN, 0, 8), // 9: a : (b /\ c)
    pattern!(op::AND, 5, 6), // 10: (a : b) & (a : c)
    pattern!(op::MINUS, 1, 2), // 11: b - c
    pattern!(op::IN, 0, 11), // 12: a : (b - c)
    pattern!(op::NOT, 6), // 13: not(a : c)
    pattern!(op::AND, 5, 13), // 14: (a : b) & not(a : c)
    pattern!(op::EMPTY_LETTER, 1), // 15: {}b
    pattern!(op::IN, 0, 15), // 16: a : {}b
    pattern!(op::BFALSE), // 17: bfalse
    pattern!(op::SINGLE, 1), // 18: {b}
    pattern!(op::IN, 0, 18), // 19: a : {b}
    pattern!(op::EQ, 0, 1), // 20: a = b
    pattern!(op::MAPS, 0, 1), // 21: a |-> b
    pattern!(op::LETTER, 3), // 22: d
    pattern!(op::TIMES, 2, 22), // 23: c * d
    pattern!(op::IN, 21, 23), // 24: (a |-> b) : (c * d)
    pattern!(op::IN, 1, 22), // 25: b : d
    pattern!(op::AND, 6, 25), // 26: (a : c) & (b : d)
    pattern!(op::MAPS, 2, 22), // 27: c |-> d
    pattern!(op::EQ, 21, 27), // 28: (a |-> b) = (c |-> d)
    pattern!(op::EQ, 0, 2), // 29: a = c
    pattern!(op::EQ, 1, 22), // 30: b = d
    pattern!(op::AND, 29, 30), // 31: (a = c) & (b = d)
    pattern!(op::POW, 1), // 32: POW(b)
    pattern!(op::IN, 0, 32), // 33: a : POW(b)
    pattern!(op::POW, 0), // 34: POW(a)
    pattern!(op::IN, 1, 34), // 35: b : POW(a)
    pattern!(op::AND, 33, 35), // 36: (a : POW(b)) & (b : POW(a))
    pattern!(op::IN, 0, 34), // 37: a : POW(a)
    pattern!(op::BTRUE), // 38: btrue
    pattern!(op::EMPTY_LETTER, 0), // 39: {}a
    pattern!(op::IN, 39, 32), // 40: {}a : POW(b)
    pattern!(op::UNION, 0, 1), // 41: a \/ b
    pattern!(op::POW, 2), // 42: POW(c)
    pattern!(op::IN, 41, 42), // 43: (a \/ b) : POW(c)
    pattern!(op::IN, 0, 42), // 44: a : POW(c)
    pattern!(op::IN, 1, 42), // 45: b : POW(c)
    pattern!(op::AND, 44, 45), // 46: (a : POW(c)) & (b : POW(c))
    pattern!(op::SINGLE, 0), // 47: {a}
    pattern!(op::IN, 47, 32), // 48: {a} : POW(b)
    pattern!(op::POW, 8), // 49: POW(b /\ c)
    pattern!(op::IN, 0, 49), // 50: a : POW(b /\ c)
    pattern!(op::AND, 33, 44), // 51: (a : POW(b)) & (a : POW(c))
    pattern!(op::INTER, 0, 1), // 52: a /\ b
    pattern!(op::IN, 52, 42), // 53: (a /\ b) : POW(c)
    pattern!(op::MINUS, 0, 1), // 54: a - b
    pattern!(op::IN, 54, 42), // 55: (a - b) : POW(c)
    pattern!(op::IN, 2, 32), // 56: c : POW(b)
    pattern!(op::POW1, 1), // 57: POW1(b)
    pattern!(op::IN, 0, 57), // 58: a : POW1(b)
    pattern!(op::EMPTY_LETTER, 2), // 59: {}c
    pattern!(op::EQ, 0, 59), // 60: a = {}c
    pattern!(op::NOT, 60), // 61: not(a = {}c)
    pattern!(op::AND, 33, 61), // 62: (a : POW(b)) & not(a = {}c)
    pattern!(op::UNION, 0, 15), // 63: a \/ {}b
    pattern!(op::UNION, 0, 0), // 64: a \/ a
    pattern!(op::UNION, 1, 0), // 65: b \/ a
    pattern!(op::UNION, 41, 2), // 66: (a \/ b) \/ c
    pattern!(op::UNION, 0, 3), // 67: a \/ (b \/ c)
    pattern!(op::INTER, 0, 15), // 68: a /\ {}b
    pattern!(op::INTER, 0, 0), // 69: a /\ a
    pattern!(op::INTER, 1, 0), // 70: b /\ a
    pattern!(op::INTER, 52, 2), // 71: (a /\ b) /\ c
    pattern!(op::INTER, 0, 8), // 72: a /\ (b /\ c)
    pattern!(op::INTER, 0, 3), // 73: a /\ (b \/ c)
    pattern!(op::INTER, 0, 2), // 74: a /\ c
    pattern!(op::UNION, 52, 74), // 75: (a /\ b) \/ (a /\ c)
    pattern!(op::UNION, 0, 8), // 76: a \/ (b /\ c)
    pattern!(op::UNION, 0, 2), // 77: a \/ c
    pattern!(op::INTER, 41, 77), // 78: (a \/ b) /\ (a \/ c)
    pattern!(op::MINUS, 0, 15), // 79: a - {}b
    pattern!(op::MINUS, 0, 0), // 80: a - a
    pattern!(op::MINUS, 0, 3), // 81: a - (b \/ c)
    pattern!(op::MINUS, 54, 2), // 82: (a - b) - c
    pattern!(op::MINUS, 41, 2), // 83: (a \/ b) - c
    pattern!(op::MINUS, 0, 2), // 84: a - c
    pattern!(op::UNION, 84, 11), // 85: (a - c) \/ (b - c)
    pattern!(op::EQ, 52, 59), // 86: (a /\ b) = {}c
    pattern!(op::RANGE, 0, 1), // 87: a .. b
    pattern!(op::LT, 1, 0), // 88: b < a
    pattern!(op::RANGE, 0, 0), // 89: a .. a
    pattern!(op::RANGE, 0, 2), // 90: a .. c
    pattern!(op::NUMBER, 1), // 91: 1
    pattern!(op::ADD, 2, 91), // 92: c + 1
    pattern!(op::RANGE, 92, 1), // 93: (c + 1) .. b
    pattern!(op::UNION, 90, 93), // 94: (a .. c) \/ ((c + 1) .. b)
    pattern!(op::LE, 0, 92), // 95: a <= (c + 1)
    pattern!(op::LE, 2, 1), // 96: c <= b
    pattern!(op::RANGE, 2, 22), // 97: c .. d
    pattern!(op::POW, 97), // 98: POW(c .. d)
    pattern!(op::IN, 87, 98), // 99: (a .. b) : POW(c .. d)
    pattern!(op::LE, 2, 0), // 100: c <= a
    pattern!(op::LE, 1, 22), // 101: b <= d
    pattern!(op::TIMES, 41, 2), // 102: (a \/ b) * c
    pattern!(op::TIMES, 0, 2), // 103: a * c
    pattern!(op::TIMES, 1, 2), // 104: b * c
    pattern!(op::UNION, 103, 104), // 105: (a * c) \/ (b * c)
];

const LAWS: [Law; 40] = [
    law!(201, 3, 4, 7), // S1
    law!(202, 3, 9, 10), // S2
    law!(203, 3, 12, 14), // S3
    law!(204, 2, 16, 17), // S4
    law!(205, 2, 19, 20), // S5
    law!(206, 4, 24, 26), // S6
    law!(207, 4, 28, 31), // S7
    law!(208, 2, 20, 36), // S8
    law!(209, 1, 37, 38), // S9
    law!(210, 2, 40, 38), // S10
    law!(211, 3, 43, 46), // S11
    law!(212, 2, 48, 5), // S12
    law!(213, 3, 50, 51), // S13
    law!(214, 3, 53, 38, 44), // S14
    law!(215, 3, 55, 38, 44), // S15
    law!(216, 3, 33, 38, 44, 56), // S16
    law!(217, 3, 58, 62), // S17
    law!(218, 3, 5, 38, 6, 56), // S18
    law!(219, 2, 63, 0), // S19
    law!(220, 1, 64, 0), // S20
    law!(221, 2, 41, 65), // S21
    law!(222, 3, 66, 67), // S22
    law!(223, 2, 68, 15), // S23
    law!(224, 1, 69, 0), // S24
    law!(225, 2, 52, 70), // S25
    law!(226, 3, 71, 72), // S26
    law!(227, 3, 73, 75), // S27
    law!(228, 3, 76, 78), // S28
    law!(229, 2, 79, 0), // S29
    law!(230, 2, 80, 15), // S30
    law!(231, 3, 81, 82), // S31
    law!(232, 3, 83, 85), // S32
    law!(233, 3, 54, 0, 86), // S33
    law!(234, 2, 41, 1, 33), // S34
    law!(235, 2, 52, 0, 33), // S35
    law!(236, 3, 87, 59, 88), // S36
    law!(237, 1, 89, 47), // S37
    law!(238, 3, 87, 94, 95, 96), // S38
    law!(239, 4, 99, 38, 100, 101), // S39
    law!(240, 3, 102, 105), // S40
];
