// Formulas as texts, and what becomes of them. The letters stand for the variables 0 to 4.

pub(crate) const LETTERS: &str = "xyzvw";

// A formula, variables that are bound together, the last one innermost, and the formula with them bound.
pub(crate) const CLOSED: &[(&str, &[u32], &str)] = &[
    ("( x < y )", &[0, 1], "( b1 < b0 )"),
    ("( x < y )", &[1, 0], "( b0 < b1 )"),
    ("( x < y )", &[], "( x < y )"),
    ("( x < y )", &[2], "( x < y )"),
    ("( x < y )", &[0, 0], "( b0 < y )"),
    ("( !i ( b0 < x ) )", &[0], "( !i ( b0 < b1 ) )"),
    (
        "( #ib ( ( b1 < x ) & ( b0 = y ) ) )",
        &[0, 1],
        "( #ib ( ( b1 < b3 ) & ( b0 = b2 ) ) )",
    ),
    (
        "( set2 ( 1 .. x ) ( 1 .. y ) ( b0 < x ) )",
        &[0],
        "( set2 ( 1 .. b0 ) ( 1 .. y ) ( b0 < b2 ) )",
    ),
    (
        "( fun1 ( 1 .. x ) ( b0 < x ) ( b0 + x ) )",
        &[0],
        "( fun1 ( 1 .. b0 ) ( b0 < b1 ) ( b0 + b1 ) )",
    ),
];

// The body of a binder, a term for each of its variables, the last one for the innermost, and the body with them.
pub(crate) const OPENED: &[(&str, &[&str], &str)] = &[
    ("( b0 < b1 )", &["v", "w"], "( w < v )"),
    (
        "( ( b2 + b1 ) + b0 )",
        &["x", "y", "z"],
        "( ( x + y ) + z )",
    ),
    ("( b0 + b0 )", &["( v * 2 )"], "( ( v * 2 ) + ( v * 2 ) )"),
    ("( x < y )", &["v"], "( x < y )"),
    ("( !i ( b0 < b1 ) )", &["v"], "( !i ( b0 < v ) )"),
    (
        "( #ib ( ( b1 < b3 ) & ( b0 = b2 ) ) )",
        &["x", "y"],
        "( #ib ( ( b1 < x ) & ( b0 = y ) ) )",
    ),
    (
        "( set2 ( 1 .. b0 ) ( 1 .. y ) ( b0 < b2 ) )",
        &["x"],
        "( set2 ( 1 .. x ) ( 1 .. y ) ( b0 < x ) )",
    ),
    (
        "( fun1 ( 1 .. b0 ) ( b0 < b1 ) ( b0 + b1 ) )",
        &["x"],
        "( fun1 ( 1 .. x ) ( b0 < x ) ( b0 + x ) )",
    ),
];

// A formula, how many binders more it stands under, and the formula there.
pub(crate) const LIFTED: &[(&str, u32, &str)] = &[
    ("( b0 < b1 )", 2, "( b2 < b3 )"),
    ("( b0 < b1 )", 0, "( b0 < b1 )"),
    ("( x < y )", 5, "( x < y )"),
    ("( !i ( b0 < b1 ) )", 2, "( !i ( b0 < b3 ) )"),
    ("( #ib ( b0 = b2 ) )", 1, "( #ib ( b0 = b3 ) )"),
    (
        "( set2 ( 1 .. b0 ) ( 1 .. b1 ) ( b0 < b2 ) )",
        1,
        "( set2 ( 1 .. b1 ) ( 1 .. b2 ) ( b0 < b3 ) )",
    ),
    (
        "( fun1 ( 1 .. b0 ) ( b0 < b1 ) ( b0 + b2 ) )",
        3,
        "( fun1 ( 1 .. b3 ) ( b0 < b4 ) ( b0 + b5 ) )",
    ),
];

// A formula, pairs of a variable and the one in its place, and the formula with those.
pub(crate) const RENAMED: &[(&str, &[(u32, u32)], &str)] = &[
    ("( x < y )", &[(0, 1), (1, 0)], "( y < x )"),
    ("( x < y )", &[(0, 3), (0, 4)], "( v < y )"),
    ("( x < y )", &[(2, 3)], "( x < y )"),
    ("( x < y )", &[], "( x < y )"),
    (
        "( !i ( #i ( b0 < x ) ) )",
        &[(0, 1)],
        "( !i ( #i ( b0 < y ) ) )",
    ),
    (
        "( fun1 ( set1 x y ) ( b0 < x ) ( b0 + z ) )",
        &[(0, 3), (2, 4)],
        "( fun1 ( set1 v y ) ( b0 < v ) ( b0 + w ) )",
    ),
];

// A formula, pairs of a variable and the term in its place, and the formula with those.
pub(crate) const REPLACED: &[(&str, &[(u32, &str)], &str)] = &[
    ("( x - x )", &[(0, "3")], "( 3 - 3 )"),
    (
        "( not ( y - x ) )",
        &[(0, "( x - z )")],
        "( not ( y - ( x - z ) ) )",
    ),
    ("( x - y )", &[(0, "y"), (1, "x")], "( y - x )"),
    ("( x - y )", &[(0, "v"), (0, "w")], "( v - y )"),
    ("( x - y )", &[(2, "v")], "( x - y )"),
    ("( x - y )", &[], "( x - y )"),
    (
        "( ( !i ( b0 = x ) ) or ( #i ( b0 = x ) ) )",
        &[(0, "y")],
        "( ( !i ( b0 = y ) ) or ( #i ( b0 = y ) ) )",
    ),
    (
        "( set2 x ( x - y ) y )",
        &[(0, "v"), (1, "btrue")],
        "( set2 v ( v - btrue ) btrue )",
    ),
    (
        "( fun1 x btrue ( x - z ) )",
        &[(0, "w")],
        "( fun1 w btrue ( w - z ) )",
    ),
];

// Formulas of one word that are no variables.
pub(crate) const WORDS: &[&str] = &["0", "b0", "TRUE", "c0", "{}i", "C", "btrue", "bfalse"];

// A formula, and whether x, y, z and v stand in it.
pub(crate) const FREE: &[(&str, [bool; 4])] = &[
    ("( not ( x - y ) )", [true, true, false, false]),
    ("( !i ( b0 = y ) )", [false, true, false, false]),
    ("( #i ( b0 = z ) )", [false, false, true, false]),
    ("( set2 y z v )", [false, true, true, true]),
    ("( fun1 y z v )", [false, true, true, true]),
    ("( w = 3 )", [false, false, false, false]),
];
