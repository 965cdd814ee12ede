//! The laws of relations and functions, as a table of numbers.

ghost use Rattle.std.specs.Prelude.{◌≡◌};
ghost use Rattle.bk_laws.specs.Tables.{rows_of};
ghost use Rattle.bk_laws_fun.specs.Rows.{rows};

use bk_laws::{law, op, pattern};
use bk_ops::{Law, Pat};

// Patterns, each told by its number in the list, and laws over them.
#[derive(Drop)]
pub(crate) struct Table {
    pub(crate) patterns: &'static [Pat; 212],
    pub(crate) laws: &'static [Law; 65],
}

// The table.
pub(crate) fn all_laws() -> Table
    ensures { rows_of result.patterns.now result.laws.now ≡ rows }
{
    Table {
        patterns: &PATTERNS,
        laws: &LAWS,
    }
}

// After each pattern stands its number, and the formula with the letters a, b, c.
const PATTERNS: [Pat; 212] = [
    pattern!(op::LETTER, 0), // 0: a
    pattern!(op::LETTER, 1), // 1: b
    pattern!(op::MAPS, 0, 1), // 2: a |-> b
    pattern!(op::LETTER, 2), // 3: c
    pattern!(op::INVERSE, 3), // 4: c~
    pattern!(op::IN, 2, 4), // 5: (a |-> b) : c~
    pattern!(op::MAPS, 1, 0), // 6: b |-> a
    pattern!(op::IN, 6, 3), // 7: (b |-> a) : c
    pattern!(op::LETTER, 3), // 8: d
    pattern!(op::DOM_RES, 3, 8), // 9: c <| d
    pattern!(op::IN, 2, 9), // 10: (a |-> b) : (c <| d)
    pattern!(op::IN, 0, 3), // 11: a : c
    pattern!(op::IN, 2, 8), // 12: (a |-> b) : d
    pattern!(op::AND, 11, 12), // 13: (a : c) & ((a |-> b) : d)
    pattern!(op::DOM_SUB, 3, 8), // 14: c <<| d
    pattern!(op::IN, 2, 14), // 15: (a |-> b) : (c <<| d)
    pattern!(op::NOT, 11), // 16: not(a : c)
    pattern!(op::AND, 16, 12), // 17: not(a : c) & ((a |-> b) : d)
    pattern!(op::RAN_RES, 3, 8), // 18: c |> d
    pattern!(op::IN, 2, 18), // 19: (a |-> b) : (c |> d)
    pattern!(op::IN, 2, 3), // 20: (a |-> b) : c
    pattern!(op::IN, 1, 8), // 21: b : d
    pattern!(op::AND, 20, 21), // 22: ((a |-> b) : c) & (b : d)
    pattern!(op::RAN_SUB, 3, 8), // 23: c |>> d
    pattern!(op::IN, 2, 23), // 24: (a |-> b) : (c |>> d)
    pattern!(op::NOT, 21), // 25: not(b : d)
    pattern!(op::AND, 20, 25), // 26: ((a |-> b) : c) & not(b : d)
    pattern!(op::ID, 3), // 27: id(c)
    pattern!(op::IN, 2, 27), // 28: (a |-> b) : id(c)
    pattern!(op::EQ, 0, 1), // 29: a = b
    pattern!(op::AND, 11, 29), // 30: (a : c) & (a = b)
    pattern!(op::OVER, 3, 8), // 31: c <+ d
    pattern!(op::IN, 2, 31), // 32: (a |-> b) : (c <+ d)
    pattern!(op::DOM, 8), // 33: dom(d)
    pattern!(op::IN, 0, 33), // 34: a : dom(d)
    pattern!(op::NOT, 34), // 35: not(a : dom(d))
    pattern!(op::AND, 20, 35), // 36: ((a |-> b) : c) & not(a : dom(d))
    pattern!(op::OR, 12, 36), // 37: ((a |-> b) : d) or (((a |-> b) : c) & not(a : dom(d)))
    pattern!(op::DOM, 1), // 38: dom(b)
    pattern!(op::IN, 0, 38), // 39: a : dom(b)
    pattern!(op::BTRUE), // 40: btrue
    pattern!(op::MAPS, 0, 3), // 41: a |-> c
    pattern!(op::IN, 41, 1), // 42: (a |-> c) : b
    pattern!(op::RAN, 1), // 43: ran(b)
    pattern!(op::IN, 0, 43), // 44: a : ran(b)
    pattern!(op::MAPS, 3, 0), // 45: c |-> a
    pattern!(op::IN, 45, 1), // 46: (c |-> a) : b
    pattern!(op::EMPTY_LETTER, 0), // 47: {}a
    pattern!(op::DOM, 47), // 48: dom({}a)
    pattern!(op::EMPTY_LETTER, 1), // 49: {}b
    pattern!(op::RAN, 47), // 50: ran({}a)
    pattern!(op::SINGLE, 2), // 51: {a |-> b}
    pattern!(op::DOM, 51), // 52: dom({a |-> b})
    pattern!(op::SINGLE, 0), // 53: {a}
    pattern!(op::RAN, 51), // 54: ran({a |-> b})
    pattern!(op::SINGLE, 1), // 55: {b}
    pattern!(op::UNION, 0, 1), // 56: a \/ b
    pattern!(op::DOM, 56), // 57: dom(a \/ b)
    pattern!(op::DOM, 0), // 58: dom(a)
    pattern!(op::UNION, 58, 38), // 59: dom(a) \/ dom(b)
    pattern!(op::RAN, 56), // 60: ran(a \/ b)
    pattern!(op::RAN, 0), // 61: ran(a)
    pattern!(op::UNION, 61, 43), // 62: ran(a) \/ ran(b)
    pattern!(op::INVERSE, 0), // 63: a~
    pattern!(op::DOM, 63), // 64: dom(a~)
    pattern!(op::RAN, 63), // 65: ran(a~)
    pattern!(op::DOM_RES, 0, 1), // 66: a <| b
    pattern!(op::DOM, 66), // 67: dom(a <| b)
    pattern!(op::INTER, 0, 38), // 68: a /\ dom(b)
    pattern!(op::DOM_SUB, 0, 1), // 69: a <<| b
    pattern!(op::DOM, 69), // 70: dom(a <<| b)
    pattern!(op::MINUS, 38, 0), // 71: dom(b) - a
    pattern!(op::RAN_RES, 0, 1), // 72: a |> b
    pattern!(op::RAN, 72), // 73: ran(a |> b)
    pattern!(op::INTER, 61, 1), // 74: ran(a) /\ b
    pattern!(op::RAN_SUB, 0, 1), // 75: a |>> b
    pattern!(op::RAN, 75), // 76: ran(a |>> b)
    pattern!(op::MINUS, 61, 1), // 77: ran(a) - b
    pattern!(op::OVER, 0, 1), // 78: a <+ b
    pattern!(op::DOM, 78), // 79: dom(a <+ b)
    pattern!(op::RAN, 78), // 80: ran(a <+ b)
    pattern!(op::POW, 3), // 81: POW(c)
    pattern!(op::IN, 80, 81), // 82: ran(a <+ b) : POW(c)
    pattern!(op::IN, 61, 81), // 83: ran(a) : POW(c)
    pattern!(op::IN, 43, 81), // 84: ran(b) : POW(c)
    pattern!(op::ID, 0), // 85: id(a)
    pattern!(op::DOM, 85), // 86: dom(id(a))
    pattern!(op::TIMES, 0, 1), // 87: a * b
    pattern!(op::DOM, 87), // 88: dom(a * b)
    pattern!(op::EMPTY_LETTER, 2), // 89: {}c
    pattern!(op::EQ, 1, 89), // 90: b = {}c
    pattern!(op::NOT, 90), // 91: not(b = {}c)
    pattern!(op::RAN, 87), // 92: ran(a * b)
    pattern!(op::EQ, 0, 89), // 93: a = {}c
    pattern!(op::NOT, 93), // 94: not(a = {}c)
    pattern!(op::INVERSE, 63), // 95: a~~
    pattern!(op::INVERSE, 56), // 96: (a \/ b)~
    pattern!(op::INVERSE, 1), // 97: b~
    pattern!(op::UNION, 63, 97), // 98: a~ \/ b~
    pattern!(op::COMP, 0, 1), // 99: (a ; b)
    pattern!(op::INVERSE, 99), // 100: (a ; b)~
    pattern!(op::COMP, 97, 63), // 101: (b~ ; a~)
    pattern!(op::COMP, 99, 3), // 102: ((a ; b) ; c)
    pattern!(op::COMP, 1, 3), // 103: (b ; c)
    pattern!(op::COMP, 0, 103), // 104: (a ; (b ; c))
    pattern!(op::UNION, 1, 3), // 105: b \/ c
    pattern!(op::IMAGE, 0, 105), // 106: a[b \/ c]
    pattern!(op::IMAGE, 0, 1), // 107: a[b]
    pattern!(op::IMAGE, 0, 3), // 108: a[c]
    pattern!(op::UNION, 107, 108), // 109: a[b] \/ a[c]
    pattern!(op::IMAGE, 0, 49), // 110: a[{}b]
    pattern!(op::IMAGE, 0, 55), // 111: a[{b}]
    pattern!(op::APPLY, 0, 1), // 112: a(b)
    pattern!(op::SINGLE, 112), // 113: {a(b)}
    pattern!(op::PARTIAL_FUNCTIONS, 3, 8), // 114: c +-> d
    pattern!(op::IN, 0, 114), // 115: a : (c +-> d)
    pattern!(op::IN, 1, 58), // 116: b : dom(a)
    pattern!(op::OVER, 0, 49), // 117: a <+ {}b
    pattern!(op::OVER, 47, 1), // 118: {}a <+ b
    pattern!(op::DOM_RES, 1, 3), // 119: b <| c
    pattern!(op::DOM_RES, 0, 119), // 120: a <| (b <| c)
    pattern!(op::INTER, 0, 1), // 121: a /\ b
    pattern!(op::DOM_RES, 121, 3), // 122: (a /\ b) <| c
    pattern!(op::RELATIONS, 1, 3), // 123: b <-> c
    pattern!(op::IN, 0, 123), // 124: a : (b <-> c)
    pattern!(op::TIMES, 1, 3), // 125: b * c
    pattern!(op::POW, 125), // 126: POW(b * c)
    pattern!(op::IN, 0, 126), // 127: a : POW(b * c)
    pattern!(op::POW, 1), // 128: POW(b)
    pattern!(op::IN, 58, 128), // 129: dom(a) : POW(b)
    pattern!(op::AND, 129, 83), // 130: (dom(a) : POW(b)) & (ran(a) : POW(c))
    pattern!(op::PARTIAL_FUNCTIONS, 1, 3), // 131: b +-> c
    pattern!(op::IN, 0, 131), // 132: a : (b +-> c)
    pattern!(op::COMP, 63, 0), // 133: (a~ ; a)
    pattern!(op::ID, 61), // 134: id(ran(a))
    pattern!(op::POW, 134), // 135: POW(id(ran(a)))
    pattern!(op::IN, 133, 135), // 136: (a~ ; a) : POW(id(ran(a)))
    pattern!(op::AND, 124, 136), // 137: (a : (b <-> c)) & ((a~ ; a) : POW(id(ran(a))))
    pattern!(op::TOTAL_FUNCTIONS, 1, 3), // 138: b --> c
    pattern!(op::IN, 0, 138), // 139: a : (b --> c)
    pattern!(op::EQ, 58, 1), // 140: dom(a) = b
    pattern!(op::AND, 132, 140), // 141: (a : (b +-> c)) & (dom(a) = b)
    pattern!(op::PARTIAL_INJECTIONS, 1, 3), // 142: b >+> c
    pattern!(op::IN, 0, 142), // 143: a : (b >+> c)
    pattern!(op::PARTIAL_FUNCTIONS, 3, 1), // 144: c +-> b
    pattern!(op::IN, 63, 144), // 145: a~ : (c +-> b)
    pattern!(op::AND, 132, 145), // 146: (a : (b +-> c)) & (a~ : (c +-> b))
    pattern!(op::TOTAL_INJECTIONS, 1, 3), // 147: b >-> c
    pattern!(op::IN, 0, 147), // 148: a : (b >-> c)
    pattern!(op::AND, 139, 145), // 149: (a : (b --> c)) & (a~ : (c +-> b))
    pattern!(op::PARTIAL_SURJECTIONS, 1, 3), // 150: b +->> c
    pattern!(op::IN, 0, 150), // 151: a : (b +->> c)
    pattern!(op::EQ, 61, 3), // 152: ran(a) = c
    pattern!(op::AND, 132, 152), // 153: (a : (b +-> c)) & (ran(a) = c)
    pattern!(op::TOTAL_SURJECTIONS, 1, 3), // 154: b -->> c
    pattern!(op::IN, 0, 154), // 155: a : (b -->> c)
    pattern!(op::AND, 139, 152), // 156: (a : (b --> c)) & (ran(a) = c)
    pattern!(op::BIJECTIONS, 1, 3), // 157: b >->> c
    pattern!(op::IN, 0, 157), // 158: a : (b >->> c)
    pattern!(op::AND, 148, 152), // 159: (a : (b >-> c)) & (ran(a) = c)
    pattern!(op::IN, 112, 3), // 160: a(b) : c
    pattern!(op::PARTIAL_FUNCTIONS, 8, 3), // 161: d +-> c
    pattern!(op::IN, 0, 161), // 162: a : (d +-> c)
    pattern!(op::EQ, 112, 3), // 163: a(b) = c
    pattern!(op::MAPS, 1, 3), // 164: b |-> c
    pattern!(op::IN, 164, 0), // 165: (b |-> c) : a
    pattern!(op::LETTER, 4), // 166: e
    pattern!(op::PARTIAL_FUNCTIONS, 8, 166), // 167: d +-> e
    pattern!(op::IN, 0, 167), // 168: a : (d +-> e)
    pattern!(op::TOTAL_FUNCTIONS, 8, 3), // 169: d --> c
    pattern!(op::IN, 0, 169), // 170: a : (d --> c)
    pattern!(op::SINGLE, 164), // 171: {b |-> c}
    pattern!(op::OVER, 0, 171), // 172: a <+ {b |-> c}
    pattern!(op::APPLY, 172, 1), // 173: (a <+ {b |-> c})(b)
    pattern!(op::APPLY, 172, 8), // 174: (a <+ {b |-> c})(d)
    pattern!(op::APPLY, 0, 8), // 175: a(d)
    pattern!(op::EQ, 8, 1), // 176: d = b
    pattern!(op::NOT, 176), // 177: not(d = b)
    pattern!(op::APPLY, 78, 3), // 178: (a <+ b)(c)
    pattern!(op::APPLY, 1, 3), // 179: b(c)
    pattern!(op::IN, 3, 38), // 180: c : dom(b)
    pattern!(op::APPLY, 0, 3), // 181: a(c)
    pattern!(op::NOT, 180), // 182: not(c : dom(b))
    pattern!(op::APPLY, 56, 3), // 183: (a \/ b)(c)
    pattern!(op::APPLY, 66, 3), // 184: (a <| b)(c)
    pattern!(op::IN, 3, 0), // 185: c : a
    pattern!(op::TIMES, 0, 55), // 186: a * {b}
    pattern!(op::APPLY, 186, 3), // 187: (a * {b})(c)
    pattern!(op::APPLY, 85, 1), // 188: id(a)(b)
    pattern!(op::IN, 1, 0), // 189: b : a
    pattern!(op::APPLY, 99, 3), // 190: (a ; b)(c)
    pattern!(op::APPLY, 1, 181), // 191: b(a(c))
    pattern!(op::IN, 3, 58), // 192: c : dom(a)
    pattern!(op::TOTAL_FUNCTIONS, 8, 166), // 193: d --> e
    pattern!(op::IN, 172, 193), // 194: (a <+ {b |-> c}) : (d --> e)
    pattern!(op::IN, 0, 193), // 195: a : (d --> e)
    pattern!(op::IN, 3, 166), // 196: c : e
    pattern!(op::IN, 78, 114), // 197: (a <+ b) : (c +-> d)
    pattern!(op::IN, 1, 114), // 198: b : (c +-> d)
    pattern!(op::TOTAL_FUNCTIONS, 0, 3), // 199: a --> c
    pattern!(op::IN, 186, 199), // 200: (a * {b}) : (a --> c)
    pattern!(op::IN, 1, 3), // 201: b : c
    pattern!(op::IN, 66, 114), // 202: (a <| b) : (c +-> d)
    pattern!(op::IN, 69, 114), // 203: (a <<| b) : (c +-> d)
    pattern!(op::IN, 56, 114), // 204: (a \/ b) : (c +-> d)
    pattern!(op::INTER, 58, 38), // 205: dom(a) /\ dom(b)
    pattern!(op::EMPTY_LETTER, 4), // 206: {}e
    pattern!(op::EQ, 205, 206), // 207: (dom(a) /\ dom(b)) = {}e
    pattern!(op::IN, 51, 114), // 208: {a |-> b} : (c +-> d)
    pattern!(op::AND, 11, 21), // 209: (a : c) & (b : d)
    pattern!(op::TOTAL_FUNCTIONS, 1, 8), // 210: b --> d
    pattern!(op::IN, 0, 210), // 211: a : (b --> d)
];

const LAWS: [Law; 65] = [
    law!(301, 3, 5, 7), // M1
    law!(302, 4, 10, 13), // M2
    law!(303, 4, 15, 17), // M3
    law!(304, 4, 19, 22), // M4
    law!(305, 4, 24, 26), // M5
    law!(306, 3, 28, 30), // M6
    law!(307, 4, 32, 37), // M7
    law!(308, 3, 39, 40, 42), // M8
    law!(309, 3, 44, 40, 46), // M9
    law!(310, 2, 48, 49), // M10
    law!(311, 2, 50, 49), // M11
    law!(312, 2, 52, 53), // M12
    law!(313, 2, 54, 55), // M13
    law!(314, 2, 57, 59), // M14
    law!(315, 2, 60, 62), // M15
    law!(316, 1, 64, 61), // M16
    law!(317, 1, 65, 58), // M17
    law!(318, 2, 67, 68), // M18
    law!(319, 2, 70, 71), // M19
    law!(320, 2, 73, 74), // M20
    law!(321, 2, 76, 77), // M21
    law!(322, 2, 79, 59), // M22
    law!(323, 3, 82, 40, 83, 84), // M23
    law!(324, 1, 86, 0), // M24
    law!(325, 3, 88, 0, 91), // M25
    law!(326, 3, 92, 1, 94), // M26
    law!(327, 1, 95, 0), // M27
    law!(328, 2, 96, 98), // M28
    law!(329, 2, 100, 101), // M29
    law!(330, 3, 102, 104), // M30
    law!(331, 3, 106, 109), // M31
    law!(332, 3, 110, 89), // M32
    law!(333, 4, 111, 113, 115, 116), // M33
    law!(334, 2, 117, 0), // M34
    law!(335, 2, 118, 1), // M35
    law!(336, 3, 120, 122), // M36
    law!(337, 3, 124, 127), // M37
    law!(338, 3, 124, 130), // M38
    law!(339, 3, 132, 137), // M39
    law!(340, 3, 139, 141), // M40
    law!(341, 3, 143, 146), // M41
    law!(342, 3, 148, 149), // M42
    law!(343, 3, 151, 153), // M43
    law!(344, 3, 155, 156), // M44
    law!(345, 3, 158, 159), // M45
    law!(346, 4, 160, 40, 162, 116), // M46
    law!(347, 5, 163, 165, 168, 116), // M47
    law!(348, 4, 160, 40, 170, 21), // M48
    law!(349, 3, 173, 3), // M49
    law!(350, 4, 174, 175, 177), // M50
    law!(351, 3, 178, 179, 180), // M51
    law!(352, 3, 178, 181, 182), // M52
    law!(353, 3, 183, 181, 182), // M53
    law!(354, 3, 184, 179, 185), // M54
    law!(355, 3, 187, 1, 185), // M55
    law!(356, 2, 188, 1, 189), // M56
    law!(357, 5, 190, 191, 168, 192), // M57
    law!(358, 5, 194, 40, 195, 21, 196), // M58
    law!(359, 4, 197, 40, 115, 198), // M59
    law!(360, 3, 200, 40, 201), // M60
    law!(361, 4, 202, 40, 198), // M61
    law!(362, 4, 203, 40, 198), // M62
    law!(363, 5, 204, 40, 115, 198, 207), // M63
    law!(364, 4, 208, 209), // M64
    law!(365, 4, 139, 40, 211, 83), // M65
];
