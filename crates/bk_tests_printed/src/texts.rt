// Formulas as tests write them, and what they print as.

// Formulas of one word.
pub(crate) const LEAVES: [(&str, &str); 16] = [
    ("n", "n$0"),
    ("v", "größe"),
    ("0", "0"),
    ("-5", "-5"),
    ("TRUE", "TRUE"),
    ("FALSE", "FALSE"),
    ("c0", "red"),
    ("c1", "green"),
    ("{}Pi", "{:POW(INTEGER)}"),
    ("{}PXPcb", "{:POW((POW(COLOR) * BOOL))}"),
    ("INTEGER", "INTEGER"),
    ("NATURAL", "NATURAL"),
    ("NATURAL1", "NATURAL1"),
    ("BOOL", "BOOL"),
    ("C", "COLOR"),
    ("btrue", "btrue"),
];

// Each operator on one operand.
pub(crate) const ONE_OPERAND: [(&str, &str); 14] = [
    ("( not bfalse )", "not(bfalse)"),
    ("( bool ( n = 1 ) )", "bool(n$0 = 1)"),
    ("( neg n )", "-(n$0)"),
    ("( neg -5 )", "-(-5)"),
    ("( card s )", "card(s)"),
    ("( min s )", "min(s)"),
    ("( max s )", "max(s)"),
    ("( dom r )", "dom(r$1)"),
    ("( ran r )", "ran(r$1)"),
    ("( id s )", "id(s)"),
    ("( ~ r )", "r$1~"),
    ("( single n )", "{n$0}"),
    ("( POW s )", "POW(s)"),
    ("( POW1 s )", "POW1(s)"),
];

// Each operator on two operands.
pub(crate) const TWO_OPERANDS: [(&str, &str); 36] = [
    ("( btrue & bfalse )", "btrue & bfalse"),
    ("( btrue or bfalse )", "btrue or bfalse"),
    ("( btrue => bfalse )", "btrue => bfalse"),
    ("( btrue <=> bfalse )", "btrue <=> bfalse"),
    ("( n = k )", "n$0 = k"),
    ("( n < k )", "n$0 < k"),
    ("( n <= k )", "n$0 <= k"),
    ("( n : s )", "n$0 : s"),
    ("( s <-> t )", "s <-> t"),
    ("( s +-> t )", "s +-> t"),
    ("( s --> t )", "s --> t"),
    ("( s >+> t )", "s >+> t"),
    ("( s >-> t )", "s >-> t"),
    ("( s +->> t )", "s +->> t"),
    ("( s -->> t )", "s -->> t"),
    ("( s >->> t )", "s >->> t"),
    ("( s \\/ s )", "s \\/ s"),
    ("( s /\\ s )", "s /\\ s"),
    ("( s minus s )", "s - s"),
    ("( s times t )", "s * t"),
    ("( s <| r )", "s <| r$1"),
    ("( r |> s )", "r$1 |> s"),
    ("( s <<| r )", "s <<| r$1"),
    ("( r |>> s )", "r$1 |>> s"),
    ("( r <+ f )", "r$1 <+ f"),
    ("( n |-> k )", "n$0 |-> k"),
    ("( n .. k )", "n$0 .. k"),
    ("( n + k )", "n$0 + k"),
    ("( n - k )", "n$0 - k"),
    ("( n * k )", "n$0 * k"),
    ("( n / k )", "n$0 / k"),
    ("( n mod k )", "n$0 mod k"),
    ("( n ** k )", "n$0 ** k"),
    ("( r image s )", "r$1[s]"),
    ("( r of n )", "r$1(n$0)"),
    ("( r ; h )", "(r$1 ; h)"),
];

// Where parentheses stand.
pub(crate) const PARENTHESES: [(&str, &str); 22] = [
    ("( ( n - 1 ) - ( k - 1 ) )", "(n$0 - 1) - (k - 1)"),
    ("( n - -5 )", "n$0 - -5"),
    ("( ( neg -5 ) - -5 )", "-(-5) - -5"),
    ("( ( r of 2 ) = -5 )", "r$1(2) = -5"),
    ("( n = ( k + ( neg n ) ) )", "n$0 = (k + -(n$0))"),
    ("( neg ( n + k ) )", "-(n$0 + k)"),
    ("( single ( n + 1 ) )", "{n$0 + 1}"),
    ("( ( n + 1 ) .. k )", "(n$0 + 1) .. k"),
    ("( dom ( r ; f ) )", "dom((r$1 ; f))"),
    ("( ~ ( r ; f ) )", "((r$1 ; f))~"),
    ("( ( r ; f ) ; h )", "((r$1 ; f) ; h)"),
    ("( ( r \\/ f ) ; h )", "((r$1 \\/ f) ; h)"),
    ("( not ( ( r ; f ) = r ) )", "not((r$1 ; f) = r$1)"),
    ("( ~ ( single ( n |-> k ) ) )", "({n$0 |-> k})~"),
    ("( ~ ( ~ r ) )", "(r$1~)~"),
    ("( ( ~ r ) of n )", "(r$1~)(n$0)"),
    ("( ( r ; f ) of ( n + 1 ) )", "((r$1 ; f))(n$0 + 1)"),
    ("( ( r \\/ f ) image ( 0 .. 3 ) )", "(r$1 \\/ f)[0 .. 3]"),
    ("( {}PXii image s )", "({:POW((INTEGER * INTEGER))})[s]"),
    ("( ( r of n ) : ( r image s ) )", "r$1(n$0) : r$1[s]"),
    ("( C times ( s times t ) )", "COLOR * (s * t)"),
    (
        "( r : ( ( 0 .. 3 ) --> INTEGER ) )",
        "r$1 : ((0 .. 3) --> INTEGER)",
    ),
];

// Binders.
pub(crate) const BINDERS: [(&str, &str); 10] = [
    (
        "( #iPc ( ( b1 = n ) & ( b0 = t ) ) )",
        "#($1:INTEGER,$2:POW(COLOR)).(($1 = n$0) & ($2 = t))",
    ),
    (
        "( !PXii ( #b ( not ( b1 = {}PXii ) ) ) )",
        "!($1:POW((INTEGER * INTEGER))).(#($2:BOOL).(not($1 = {:POW((INTEGER * INTEGER))})))",
    ),
    (
        "( btrue & ( !i ( b0 = n ) ) )",
        "btrue & !($1:INTEGER).($1 = n$0)",
    ),
    ("( set1 ( 0 .. 3 ) ( b0 < 3 ) )", "{$1:(0 .. 3) | ($1 < 3)}"),
    ("( set2 s t btrue )", "{$1:s,$2:t | btrue}"),
    (
        "( set3 s t C ( b1 = b0 ) )",
        "{$1:s,$2:t,$3:COLOR | ($2 = $3)}",
    ),
    ("( fun1 s btrue ( b0 + 1 ) )", "%($1:s).(btrue | ($1 + 1))"),
    (
        "( fun2 s C ( b0 = c0 ) b1 )",
        "%($1:s,$2:COLOR).(($2 = red) | $1)",
    ),
    (
        "( set1 ( set1 s ( b0 < n ) ) ( b0 = k ) )",
        "{$1:{$1:s | ($1 < n$0)} | ($1 = k)}",
    ),
    (
        "( !i ( b0 : ( set1 s ( b0 < b1 ) ) ) )",
        "!($1:INTEGER).($1 : {$2:s | ($2 < $1)})",
    ),
];

// Hypotheses and goals of obligations: of a machine with two nested choices, and of a loop that writes its variable and lowers nothing.
pub(crate) const OBLIGATIONS: [(&str, &str); 4] = [
    ("( 0 : ( 0 .. 10 ) )", "0 : (0 .. 10)"),
    ("( n : ( 0 .. 10 ) )", "n$0 : (0 .. 10)"),
    (
        "( !i ( ( b0 : ( 0 .. 10 ) ) => ( !i ( ( b0 : ( 0 .. 10 ) ) => ( b0 : ( 0 .. 10 ) ) ) ) ) )",
        "!($1:INTEGER).(($1 : (0 .. 10)) => !($2:INTEGER).(($2 : (0 .. 10)) => ($2 : (0 .. 10))))",
    ),
    (
        "( !i ( ( ( b0 : ( 0 .. 10 ) ) & ( b0 < 10 ) ) => ( ( 10 - b0 ) < ( 10 - b0 ) ) ) )",
        "!($1:INTEGER).((($1 : (0 .. 10)) & ($1 < 10)) => ((10 - $1) < (10 - $1)))",
    ),
];

// What no table lists has no name, and a number that nothing binds is the number 0. Such texts are not read.
pub(crate) const LACKING: [(&str, &str); 3] = [
    ("( b0 = 1 )", "$0 = 1"),
    ("( n : D )", "n$0 : "),
    ("( n = d0 )", "n$0 = "),
];

// Types.
pub(crate) const TYPES: [(&str, &str); 6] = [
    ("i", "INTEGER"),
    ("b", "BOOL"),
    ("c", "COLOR"),
    ("Pi", "POW(INTEGER)"),
    ("Xib", "(INTEGER * BOOL)"),
    ("PXPic", "POW((POW(INTEGER) * COLOR))"),
];
