//! The laws of logic, order and counting, as a table of numbers.

ghost use Rattle.std.specs.Prelude.{◌≡◌};
ghost use Rattle.bk_laws.specs.Tables.{rows_of};
ghost use Rattle.bk_laws_log.specs.Rows.{rows};

use bk_laws::{law, op, pattern};
use bk_ops::{Law, Pat};

// Patterns, each told by its number in the list, and laws over them.
#[derive(Drop)]
pub(crate) struct Table {
    pub(crate) patterns: &'static [Pat; 149],
    pub(crate) laws: &'static [Law; 58],
}

// The table.
pub(crate) fn all_laws() -> Table
    ensures { rows_of result.patterns.now result.laws.now ≡ rows }
{
    Table {
        patterns: &PATTERNS,
        laws: &LAWS,
    }
}

// After each pattern stands its number, and the formula with the letters a, b, c.
const PATTERNS: [Pat; 149] = [
    pattern!(op::LETTER, 0), // 0: a
    pattern!(op::NOT, 0), // 1: not(a)
    pattern!(op::NOT, 1), // 2: not(not(a))
    pattern!(op::LETTER, 1), // 3: b
    pattern!(op::AND, 0, 3), // 4: a & b
    pattern!(op::NOT, 4), // 5: not(a & b)
    pattern!(op::NOT, 3), // 6: not(b)
    pattern!(op::OR, 1, 6), // 7: not(a) or not(b)
    pattern!(op::OR, 0, 3), // 8: a or b
    pattern!(op::NOT, 8), // 9: not(a or b)
    pattern!(op::AND, 1, 6), // 10: not(a) & not(b)
    pattern!(op::IMP, 0, 3), // 11: a => b
    pattern!(op::NOT, 11), // 12: not(a => b)
    pattern!(op::AND, 0, 6), // 13: a & not(b)
    pattern!(op::OR, 1, 3), // 14: not(a) or b
    pattern!(op::IFF, 0, 3), // 15: a <=> b
    pattern!(op::IMP, 3, 0), // 16: b => a
    pattern!(op::AND, 11, 16), // 17: (a => b) & (b => a)
    pattern!(op::AND, 3, 0), // 18: b & a
    pattern!(op::OR, 3, 0), // 19: b or a
    pattern!(op::LETTER, 2), // 20: c
    pattern!(op::AND, 4, 20), // 21: (a & b) & c
    pattern!(op::AND, 3, 20), // 22: b & c
    pattern!(op::AND, 0, 22), // 23: a & (b & c)
    pattern!(op::OR, 8, 20), // 24: (a or b) or c
    pattern!(op::OR, 3, 20), // 25: b or c
    pattern!(op::OR, 0, 25), // 26: a or (b or c)
    pattern!(op::AND, 0, 25), // 27: a & (b or c)
    pattern!(op::AND, 0, 20), // 28: a & c
    pattern!(op::OR, 4, 28), // 29: (a & b) or (a & c)
    pattern!(op::OR, 0, 22), // 30: a or (b & c)
    pattern!(op::OR, 0, 20), // 31: a or c
    pattern!(op::AND, 8, 31), // 32: (a or b) & (a or c)
    pattern!(op::BTRUE), // 33: btrue
    pattern!(op::AND, 33, 0), // 34: btrue & a
    pattern!(op::BFALSE), // 35: bfalse
    pattern!(op::AND, 35, 0), // 36: bfalse & a
    pattern!(op::OR, 33, 0), // 37: btrue or a
    pattern!(op::OR, 35, 0), // 38: bfalse or a
    pattern!(op::IMP, 33, 0), // 39: btrue => a
    pattern!(op::IMP, 0, 33), // 40: a => btrue
    pattern!(op::NOT, 33), // 41: not(btrue)
    pattern!(op::NOT, 35), // 42: not(bfalse)
    pattern!(op::AND, 0, 0), // 43: a & a
    pattern!(op::EQ, 0, 3), // 44: a = b
    pattern!(op::EQ, 3, 0), // 45: b = a
    pattern!(op::EQ, 0, 0), // 46: a = a
    pattern!(op::BOOL_OF, 0), // 47: bool(a)
    pattern!(op::TRUE), // 48: TRUE
    pattern!(op::EQ, 47, 48), // 49: bool(a) = TRUE
    pattern!(op::FALSE), // 50: FALSE
    pattern!(op::EQ, 47, 50), // 51: bool(a) = FALSE
    pattern!(op::EQ, 0, 48), // 52: a = TRUE
    pattern!(op::NOT, 52), // 53: not(a = TRUE)
    pattern!(op::EQ, 0, 50), // 54: a = FALSE
    pattern!(op::NOT, 54), // 55: not(a = FALSE)
    pattern!(op::IMP, 3, 20), // 56: b => c
    pattern!(op::IMP, 0, 56), // 57: a => (b => c)
    pattern!(op::IMP, 4, 20), // 58: (a & b) => c
    pattern!(op::LE, 0, 3), // 59: a <= b
    pattern!(op::LE, 3, 0), // 60: b <= a
    pattern!(op::AND, 59, 60), // 61: (a <= b) & (b <= a)
    pattern!(op::LT, 0, 3), // 62: a < b
    pattern!(op::NUMBER, 1), // 63: 1
    pattern!(op::ADD, 0, 63), // 64: a + 1
    pattern!(op::LE, 64, 3), // 65: (a + 1) <= b
    pattern!(op::NOT, 62), // 66: not(a < b)
    pattern!(op::NOT, 59), // 67: not(a <= b)
    pattern!(op::LT, 3, 0), // 68: b < a
    pattern!(op::RANGE, 3, 20), // 69: b .. c
    pattern!(op::IN, 0, 69), // 70: a : (b .. c)
    pattern!(op::LE, 0, 20), // 71: a <= c
    pattern!(op::AND, 60, 71), // 72: (b <= a) & (a <= c)
    pattern!(op::NATURAL), // 73: NATURAL
    pattern!(op::IN, 0, 73), // 74: a : NATURAL
    pattern!(op::NUMBER, 0), // 75: 0
    pattern!(op::LE, 75, 0), // 76: 0 <= a
    pattern!(op::NATURAL1), // 77: NATURAL1
    pattern!(op::IN, 0, 77), // 78: a : NATURAL1
    pattern!(op::LE, 63, 0), // 79: 1 <= a
    pattern!(op::NOT, 44), // 80: not(a = b)
    pattern!(op::OR, 62, 68), // 81: (a < b) or (b < a)
    pattern!(op::DIV, 0, 3), // 82: a / b
    pattern!(op::EQ, 82, 20), // 83: (a / b) = c
    pattern!(op::MUL, 20, 3), // 84: c * b
    pattern!(op::LE, 84, 0), // 85: (c * b) <= a
    pattern!(op::ADD, 84, 3), // 86: (c * b) + b
    pattern!(op::LT, 0, 86), // 87: a < ((c * b) + b)
    pattern!(op::AND, 85, 87), // 88: ((c * b) <= a) & (a < ((c * b) + b))
    pattern!(op::LT, 75, 3), // 89: 0 < b
    pattern!(op::MOD, 0, 3), // 90: a mod b
    pattern!(op::MUL, 3, 82), // 91: b * (a / b)
    pattern!(op::SUB, 0, 91), // 92: a - (b * (a / b))
    pattern!(op::SUB, 3, 63), // 93: b - 1
    pattern!(op::RANGE, 75, 93), // 94: 0 .. (b - 1)
    pattern!(op::IN, 90, 94), // 95: (a mod b) : (0 .. (b - 1))
    pattern!(op::POWER, 0, 75), // 96: a ** 0
    pattern!(op::ADD, 3, 63), // 97: b + 1
    pattern!(op::POWER, 0, 97), // 98: a ** (b + 1)
    pattern!(op::POWER, 0, 3), // 99: a ** b
    pattern!(op::MUL, 0, 99), // 100: a * (a ** b)
    pattern!(op::LE, 75, 3), // 101: 0 <= b
    pattern!(op::MUL, 0, 3), // 102: a * b
    pattern!(op::LE, 75, 102), // 103: 0 <= (a * b)
    pattern!(op::LE, 102, 84), // 104: (a * b) <= (c * b)
    pattern!(op::MAX, 0), // 105: max(a)
    pattern!(op::IN, 105, 0), // 106: max(a) : a
    pattern!(op::EMPTY_LETTER, 1), // 107: {}b
    pattern!(op::EQ, 0, 107), // 108: a = {}b
    pattern!(op::NOT, 108), // 109: not(a = {}b)
    pattern!(op::MAX, 3), // 110: max(b)
    pattern!(op::LE, 0, 110), // 111: a <= max(b)
    pattern!(op::IN, 0, 3), // 112: a : b
    pattern!(op::MIN, 0), // 113: min(a)
    pattern!(op::IN, 113, 0), // 114: min(a) : a
    pattern!(op::LE, 113, 3), // 115: min(a) <= b
    pattern!(op::IN, 3, 0), // 116: b : a
    pattern!(op::SINGLE, 0), // 117: {a}
    pattern!(op::MAX, 117), // 118: max({a})
    pattern!(op::MIN, 117), // 119: min({a})
    pattern!(op::EMPTY_LETTER, 0), // 120: {}a
    pattern!(op::CARD, 120), // 121: card({}a)
    pattern!(op::CARD, 117), // 122: card({a})
    pattern!(op::SINGLE, 3), // 123: {b}
    pattern!(op::UNION, 0, 123), // 124: a \/ {b}
    pattern!(op::CARD, 124), // 125: card(a \/ {b})
    pattern!(op::CARD, 0), // 126: card(a)
    pattern!(op::ADD, 126, 63), // 127: card(a) + 1
    pattern!(op::NOT, 116), // 128: not(b : a)
    pattern!(op::MINUS, 0, 123), // 129: a - {b}
    pattern!(op::CARD, 129), // 130: card(a - {b})
    pattern!(op::SUB, 126, 63), // 131: card(a) - 1
    pattern!(op::RANGE, 0, 3), // 132: a .. b
    pattern!(op::CARD, 132), // 133: card(a .. b)
    pattern!(op::SUB, 3, 0), // 134: b - a
    pattern!(op::ADD, 134, 63), // 135: (b - a) + 1
    pattern!(op::LE, 0, 97), // 136: a <= (b + 1)
    pattern!(op::LE, 75, 126), // 137: 0 <= card(a)
    pattern!(op::CARD, 3), // 138: card(b)
    pattern!(op::LE, 126, 138), // 139: card(a) <= card(b)
    pattern!(op::POW, 3), // 140: POW(b)
    pattern!(op::IN, 0, 140), // 141: a : POW(b)
    pattern!(op::EQ, 126, 75), // 142: card(a) = 0
    pattern!(op::UNION, 0, 3), // 143: a \/ b
    pattern!(op::CARD, 143), // 144: card(a \/ b)
    pattern!(op::ADD, 126, 138), // 145: card(a) + card(b)
    pattern!(op::INTER, 0, 3), // 146: a /\ b
    pattern!(op::EMPTY_LETTER, 2), // 147: {}c
    pattern!(op::EQ, 146, 147), // 148: (a /\ b) = {}c
];

const LAWS: [Law; 58] = [
    law!(1, 1, 2, 0), // G1
    law!(2, 2, 5, 7), // G2
    law!(3, 2, 9, 10), // G3
    law!(4, 2, 12, 13), // G4
    law!(5, 2, 11, 14), // G5
    law!(6, 2, 15, 17), // G6
    law!(7, 2, 4, 18), // G7
    law!(8, 2, 8, 19), // G8
    law!(9, 3, 21, 23), // G9
    law!(10, 3, 24, 26), // G10
    law!(11, 3, 27, 29), // G11
    law!(12, 3, 30, 32), // G12
    law!(13, 1, 34, 0), // G13
    law!(14, 1, 36, 35), // G14
    law!(15, 1, 37, 33), // G15
    law!(16, 1, 38, 0), // G16
    law!(17, 1, 39, 0), // G17
    law!(18, 1, 40, 33), // G18
    law!(19, 0, 41, 35), // G19
    law!(20, 0, 42, 33), // G20
    law!(21, 1, 43, 0), // G21
    law!(22, 2, 44, 45), // G22
    law!(23, 1, 46, 33), // G23
    law!(24, 1, 49, 0), // G24
    law!(25, 1, 51, 1), // G25
    law!(26, 1, 53, 54), // G26
    law!(27, 1, 55, 52), // G27
    law!(28, 3, 57, 58), // G28
    law!(101, 2, 44, 61), // O1
    law!(102, 2, 62, 65), // O2
    law!(103, 2, 66, 60), // O3
    law!(104, 2, 67, 68), // O4
    law!(105, 3, 70, 72), // O5
    law!(106, 1, 74, 76), // O6
    law!(107, 1, 78, 79), // O7
    law!(108, 2, 80, 81), // O8
    law!(109, 3, 83, 88, 76, 89), // O9
    law!(110, 2, 90, 92, 76, 89), // O10
    law!(111, 2, 95, 33, 76, 89), // O11
    law!(112, 1, 96, 63), // O12
    law!(113, 2, 98, 100, 101), // O13
    law!(114, 2, 103, 33, 76, 101), // O14
    law!(115, 3, 104, 33, 71, 101), // O15
    law!(116, 2, 106, 33, 109), // O16
    law!(117, 2, 111, 33, 112), // O17
    law!(118, 2, 114, 33, 109), // O18
    law!(119, 2, 115, 33, 116), // O19
    law!(120, 1, 118, 0), // O20
    law!(121, 1, 119, 0), // O21
    law!(122, 1, 121, 75), // O22
    law!(123, 1, 122, 63), // O23
    law!(124, 2, 125, 127, 128), // O24
    law!(125, 2, 130, 131, 116), // O25
    law!(126, 2, 133, 135, 136), // O26
    law!(127, 1, 137, 33), // O27
    law!(128, 2, 139, 33, 141), // O28
    law!(129, 2, 142, 108), // O29
    law!(130, 3, 144, 145, 148), // O30
];
