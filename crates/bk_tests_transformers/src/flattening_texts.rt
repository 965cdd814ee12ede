// Substitutions with `||`: the boxes of the rewritten, how many copies there are, and what both sides write.

// A substitution, what is to hold after it, and the box of the rewritten. A copy is the number that is bound before `b0 = x`.
pub(crate) const REWRITTEN: [(&str, &str, &str); 12] = [
    (
        "x := y || y := x",
        "( ( x = 1 ) & ( y = 2 ) )",
        "( !i ( ( b0 = x ) => ( ( y = 1 ) & ( b0 = 2 ) ) ) )",
    ),
    ("skip || x := 1", "( x < y )", "( 1 < y )"),
    (
        "BEGIN x := y || y := x END || z := x",
        "( z = x )",
        "( !ii ( ( ( b1 = x ) & ( b0 = y ) ) => ( !i ( ( b0 = x ) => ( b2 = y ) ) ) ) )",
    ),
    (
        "PRE ( x = 1 ) THEN x := y || y := x END",
        "( x < y )",
        "( ( x = 1 ) & ( !i ( ( b0 = x ) => ( y < b0 ) ) ) )",
    ),
    (
        "SELECT ( x = 1 ) THEN x := y || y := x END",
        "( x < y )",
        "( ( x = 1 ) => ( !i ( ( b0 = x ) => ( y < b0 ) ) ) )",
    ),
    (
        "ASSERT ( x = 1 ) THEN x := y || y := x END",
        "( x < y )",
        "( ( x = 1 ) & ( ( x = 1 ) => ( !i ( ( b0 = x ) => ( y < b0 ) ) ) ) )",
    ),
    (
        "CHOICE x := y || y := x OR x := y || y := x END",
        "( x < y )",
        "( ( !i ( ( b0 = x ) => ( y < b0 ) ) ) & ( !i ( ( b0 = x ) => ( y < b0 ) ) ) )",
    ),
    (
        "IF ( x = 1 ) THEN x := y || y := x ELSE x := y || y := x END",
        "( x < y )",
        "( ( ( x = 1 ) => ( !i ( ( b0 = x ) => ( y < b0 ) ) ) ) & ( ( not ( x = 1 ) ) => ( !i ( ( b0 = x ) => ( y < b0 ) ) ) ) )",
    ),
    (
        "VAR z IN x := y || y := x END",
        "( x < y )",
        "( !i ( !i ( ( b0 = x ) => ( y < b0 ) ) ) )",
    ),
    (
        "BEGIN x := y || y := x END ; skip",
        "( x < y )",
        "( !i ( ( b0 = x ) => ( y < b0 ) ) )",
    ),
    (
        "x := 5 || PRE ( x = 1 ) THEN skip END",
        "( x < y )",
        "( !i ( ( b0 = x ) => ( ( b0 = 1 ) & ( 5 < y ) ) ) )",
    ),
    (
        "x := 5 || z :( z = x )",
        "( x < y )",
        "( !i ( ( b0 = x ) => ( !i ( ( b0 = b1 ) => ( 5 < y ) ) ) ) )",
    ),
];

// A substitution, and how many entries its copies have.
pub(crate) const COPIED: [(&str, usize); 5] = [
    ("x := y || y := x", 1),
    ("skip || x := 1", 0),
    ("BEGIN x := y || y := x END || z := x", 3),
    (
        "IF ( x = 1 ) THEN x := y || y := x ELSE x := y || y := x END",
        2,
    ),
    (
        "WHILE ( x = 1 ) DO x := y || y := x INVARIANT ( x = 1 ) VARIANT y END",
        1,
    ),
];

// A substitution, and the smallest variable that both sides of a `||` write.
pub(crate) const OVERLAPPING: [(&str, &str); 4] = [
    ("x := y || x := z", "x"),
    ("skip || BEGIN x := y || x := z END", "x"),
    ("skip ; BEGIN x := y || x := z END", "x"),
    (
        "BEGIN z := x || z := y END ; BEGIN y := x || y := z END",
        "y",
    ),
];
