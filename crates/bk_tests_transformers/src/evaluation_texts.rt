// Substitutions, and what an implementation without arrays is asked of what it evaluates.

// Sums have to be numbers of the machine, under the conditions where they are met.
pub(crate) const EVALUATED: [(&str, &str); 8] = [
    (
        "x := ( y + 1 )",
        "( ( -2147483647 <= ( y + 1 ) ) & ( ( y + 1 ) <= 2147483647 ) )",
    ),
    ("x := y", "btrue"),
    (
        "IF ( y < 1 ) THEN x := ( y - 1 ) ELSE skip END",
        "( ( y < 1 ) => ( ( -2147483647 <= ( y - 1 ) ) & ( ( y - 1 ) <= 2147483647 ) ) )",
    ),
    (
        "IF ( y < 1 ) THEN skip ELSE x := ( y - 1 ) END",
        "( ( not ( y < 1 ) ) => ( ( -2147483647 <= ( y - 1 ) ) & ( ( y - 1 ) <= 2147483647 ) ) )",
    ),
    ("PRE ( y < 1 ) THEN x := y END", "btrue"),
    (
        "PRE btrue THEN x := ( y - 1 ) END",
        "( ( -2147483647 <= ( y - 1 ) ) & ( ( y - 1 ) <= 2147483647 ) )",
    ),
    (
        "y := 1 ; x := ( y - 1 )",
        "( ( -2147483647 <= ( 1 - 1 ) ) & ( ( 1 - 1 ) <= 2147483647 ) )",
    ),
    (
        "IF ( not ( ( y < 1 ) or ( ( y + 1 ) < 2 ) ) ) THEN skip ELSE skip END",
        "( ( not ( y < 1 ) ) => ( ( -2147483647 <= ( y + 1 ) ) & ( ( y + 1 ) <= 2147483647 ) ) )",
    ),
];
