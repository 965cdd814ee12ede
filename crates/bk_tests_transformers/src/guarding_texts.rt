// Substitutions, and what is asked beside what they do.

// A substitution, and what is asked of it in a machine.
pub(crate) const ASKED: [(&str, &str); 13] = [
    (
        "PRE ( ( x / y ) = 1 ) THEN x := ( x / y ) END",
        "( ( not ( y = 0 ) ) & ( ( ( x / y ) = 1 ) => ( not ( y = 0 ) ) ) )",
    ),
    (
        "SELECT ( ( x / y ) = 1 ) THEN x := ( x / y ) END",
        "( ( not ( y = 0 ) ) & ( ( ( x / y ) = 1 ) => ( not ( y = 0 ) ) ) )",
    ),
    (
        "ASSERT ( ( x / y ) = 1 ) THEN x := ( x / y ) END",
        "( ( not ( y = 0 ) ) & ( ( ( x / y ) = 1 ) => ( not ( y = 0 ) ) ) )",
    ),
    (
        "IF ( ( x + y ) = 1 ) THEN skip ELSE x := ( x / y ) END",
        "( ( not ( ( x + y ) = 1 ) ) => ( not ( y = 0 ) ) )",
    ),
    (
        "CHOICE x := ( x / y ) OR x := ( x / y ) END",
        "( ( not ( y = 0 ) ) & ( not ( y = 0 ) ) )",
    ),
    ("y := 0 ; x := ( x / y )", "( not ( 0 = 0 ) )"),
    ("x := 9 ; x := ( x + 1 )", "btrue"),
    ("a := ( a <+ ( single ( x |-> ( x + y ) ) ) )", "btrue"),
    // What is bound has each value.
    ("VAR y IN x := ( x / y ) END", "( !i ( not ( b0 = 0 ) ) )"),
    ("VAR y IN skip END", "btrue"),
    ("x :( ( y / X ) = x )", "( !i ( not ( x = 0 ) ) )"),
    // A loop, and one that writes nothing, which asks of one state.
    (
        "WHILE ( ( x / y ) = 1 ) DO x := ( x / y ) INVARIANT ( y < 1 ) VARIANT ( x / y ) END",
        "( !i ( ( y < 1 ) => ( ( not ( y = 0 ) )
        & ( ( ( b0 / y ) = 1 ) => ( ( not ( y = 0 ) ) & ( not ( y = 0 ) ) ) ) ) ) )",
    ),
    (
        "WHILE ( ( x / y ) = 1 ) DO skip INVARIANT ( y < 1 ) VARIANT ( x / y ) END",
        "( ( y < 1 ) => ( ( not ( y = 0 ) ) & ( ( ( x / y ) = 1 ) => ( not ( y = 0 ) ) ) ) )",
    ),
];

// A substitution, and what is asked of it in an implementation whose numbers go to 9, where a is an array with the indices 1 to 5.
pub(crate) const ASKED_WITH_ARRAY: [(&str, &str); 5] = [
    (
        "PRE ( ( x / y ) = 1 ) THEN x := ( x / y ) END",
        "( ( not ( y = 0 ) ) & ( ( ( x / y ) = 1 ) => ( not ( y = 0 ) ) ) )",
    ),
    (
        "IF ( ( x + y ) = 1 ) THEN skip ELSE x := ( x / y ) END",
        "( ( ( -9 <= ( x + y ) ) & ( ( x + y ) <= 9 ) )
        & ( ( not ( ( x + y ) = 1 ) ) => ( not ( y = 0 ) ) ) )",
    ),
    (
        "x := 9 ; x := ( x + 1 )",
        "( ( -9 <= ( 9 + 1 ) ) & ( ( 9 + 1 ) <= 9 ) )",
    ),
    (
        "a := ( a <+ ( single ( x |-> ( x + y ) ) ) )",
        "( ( ( 1 <= x ) & ( x <= 5 ) ) & ( ( -9 <= ( x + y ) ) & ( ( x + y ) <= 9 ) ) )",
    ),
    ("a := ( ( 1 .. 5 ) times ( single 0 ) )", "btrue"),
];
