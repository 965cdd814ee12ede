// Formulas and what they ask, as texts. The letters x and y stand for whole numbers, f for a relation from whole numbers to
// whole numbers, g for one from pairs of a whole number and a truth value to sets of elements of C, h for one from elements of
// C to whole numbers, s for a set of whole numbers, and p for a truth value.

pub(crate) const LETTERS: &str = "xyfghsp";

// The types of the letters.
pub(crate) const TYPES: [&str; 7] = ["i", "i", "PXii", "PXXibPc", "PXci", "Pi", "b"];

// Each operator's own condition, after those of its operands, joined to the left.
pub(crate) const OPERATORS: [(&str, &str); 12] = [
    ("( x / y )", "( not ( y = 0 ) )"),
    ("( x mod y )", "( ( 0 <= x ) & ( 0 < y ) )"),
    ("( x ** y )", "( 0 <= y )"),
    ("( min s )", "( not ( s = {}Pi ) )"),
    ("( max s )", "( not ( s = {}Pi ) )"),
    (
        "( f of x )",
        "( ( f : ( INTEGER +-> INTEGER ) ) & ( x : ( dom f ) ) )",
    ),
    (
        "( h of c1 )",
        "( ( h : ( C +-> INTEGER ) ) & ( c1 : ( dom h ) ) )",
    ),
    (
        "( g of ( x |-> p ) )",
        "( ( g : ( ( INTEGER times BOOL ) +-> ( POW C ) ) ) & ( ( x |-> p ) : ( dom g ) ) )",
    ),
    (
        "( ( x / y ) + ( y / x ) )",
        "( ( not ( y = 0 ) ) & ( not ( x = 0 ) ) )",
    ),
    (
        "( ( x / y ) / y )",
        "( ( not ( y = 0 ) ) & ( not ( y = 0 ) ) )",
    ),
    (
        "( ( x / y ) mod ( y / x ) )",
        "( ( ( not ( y = 0 ) ) & ( not ( x = 0 ) ) ) & ( ( 0 <= ( x / y ) ) & ( 0 < ( y / x ) ) ) )",
    ),
    (
        "( f of ( f of x ) )",
        "( ( ( f : ( INTEGER +-> INTEGER ) ) & ( x : ( dom f ) ) ) & ( ( f : ( INTEGER +-> INTEGER ) ) & ( ( f of x ) : ( dom f ) ) ) )",
    ),
];

// What is defined everywhere.
pub(crate) const EVERYWHERE: &[&str] = &[
    "x",
    "b0",
    "3",
    "TRUE",
    "c0",
    "{}Pi",
    "INTEGER",
    "btrue",
    "bfalse",
    "( neg x )",
    "( card s )",
    "( dom f )",
    "( ran f )",
    "( id s )",
    "( ~ f )",
    "( single x )",
    "( POW s )",
    "( POW1 s )",
    "( x = y )",
    "( x < y )",
    "( x <= y )",
    "( x : s )",
    "( s <-> s )",
    "( s +-> s )",
    "( s --> s )",
    "( s >+> s )",
    "( s >-> s )",
    "( s +->> s )",
    "( s -->> s )",
    "( s >->> s )",
    "( s \\/ s )",
    "( s /\\ s )",
    "( s minus s )",
    "( s times s )",
    "( s <| f )",
    "( f |> s )",
    "( s <<| f )",
    "( f |>> s )",
    "( f <+ f )",
    "( x |-> y )",
    "( x .. y )",
    "( x - y )",
    "( x * y )",
    "( f image s )",
    "( f ; f )",
];

// Operands that ask something, of operators that ask nothing.
pub(crate) const OPERANDS: [(&str, &str); 6] = [
    ("( neg ( x / y ) )", "( not ( y = 0 ) )"),
    ("( bool ( ( x / y ) = 1 ) )", "( not ( y = 0 ) )"),
    ("( not ( ( x / y ) = 1 ) )", "( not ( y = 0 ) )"),
    ("( s \\/ ( single ( x / y ) ) )", "( not ( y = 0 ) )"),
    ("( ( x / y ) : s )", "( not ( y = 0 ) )"),
    ("( f image ( 1 .. ( x / y ) ) )", "( not ( y = 0 ) )"),
];

// Right sides are asked where they are met; btrue is left out.
pub(crate) const CONNECTIVES: [(&str, &str); 11] = [
    (
        "( ( y < 1 ) & ( ( x / y ) = 1 ) )",
        "( ( y < 1 ) => ( not ( y = 0 ) ) )",
    ),
    (
        "( ( y < 1 ) => ( ( x / y ) = 1 ) )",
        "( ( y < 1 ) => ( not ( y = 0 ) ) )",
    ),
    (
        "( ( y < 1 ) or ( ( x / y ) = 1 ) )",
        "( ( not ( y < 1 ) ) => ( not ( y = 0 ) ) )",
    ),
    ("( ( y < 1 ) <=> ( ( x / y ) = 1 ) )", "( not ( y = 0 ) )"),
    ("( ( ( x / y ) = 1 ) & ( y < 1 ) )", "( not ( y = 0 ) )"),
    ("( ( ( x / y ) = 1 ) or ( y < 1 ) )", "( not ( y = 0 ) )"),
    (
        "( ( ( x / y ) = 1 ) & ( ( y / x ) = 1 ) )",
        "( ( not ( y = 0 ) ) & ( ( ( x / y ) = 1 ) => ( not ( x = 0 ) ) ) )",
    ),
    (
        "( ( ( x / y ) = 1 ) => ( ( y / x ) = 1 ) )",
        "( ( not ( y = 0 ) ) & ( ( ( x / y ) = 1 ) => ( not ( x = 0 ) ) ) )",
    ),
    (
        "( ( ( x / y ) = 1 ) or ( ( y / x ) = 1 ) )",
        "( ( not ( y = 0 ) ) & ( ( not ( ( x / y ) = 1 ) ) => ( not ( x = 0 ) ) ) )",
    ),
    (
        "( ( ( x / y ) = 1 ) <=> ( ( y / x ) = 1 ) )",
        "( ( not ( y = 0 ) ) & ( not ( x = 0 ) ) )",
    ),
    ("( btrue => ( ( x / y ) = 1 ) )", "( not ( y = 0 ) )"),
];

// Quantifiers, also within one another and over relations.
pub(crate) const QUANTIFIERS: [(&str, &str); 8] = [
    ("( !i ( ( x / b0 ) = 1 ) )", "( !i ( not ( b0 = 0 ) ) )"),
    ("( #i ( ( x / b0 ) = 1 ) )", "( !i ( not ( b0 = 0 ) ) )"),
    (
        "( !ib ( ( ( x / b1 ) = 1 ) & ( b0 = TRUE ) ) )",
        "( !ib ( not ( b1 = 0 ) ) )",
    ),
    (
        "( !i ( #b ( ( ( x / b1 ) = 1 ) & ( b0 = TRUE ) ) ) )",
        "( !i ( !b ( not ( b1 = 0 ) ) ) )",
    ),
    ("( !i ( b0 = 1 ) )", "btrue"),
    ("( #i ( !i ( b0 = b1 ) ) )", "btrue"),
    (
        "( !PXib ( ( b0 of x ) = TRUE ) )",
        "( !PXib ( ( b0 : ( INTEGER +-> BOOL ) ) & ( x : ( dom b0 ) ) ) )",
    ),
    (
        "( !PXib ( #i ( ( b1 of b0 ) = TRUE ) ) )",
        "( !PXib ( !i ( ( b1 : ( INTEGER +-> BOOL ) ) & ( b0 : ( dom b1 ) ) ) ) )",
    ),
];

// Comprehensions and lambdas: the ranges outside, and for their elements the body, and where that is true the value.
pub(crate) const RANGES: [(&str, &str); 11] = [
    (
        "( set1 ( 1 .. x ) ( ( x / b0 ) = 1 ) )",
        "( !i ( ( b0 : ( 1 .. x ) ) => ( not ( b0 = 0 ) ) ) )",
    ),
    (
        "( set2 ( 1 .. x ) ( 1 .. y ) ( ( x / b0 ) = 1 ) )",
        "( !ii ( ( ( b1 : ( 1 .. x ) ) & ( b0 : ( 1 .. y ) ) ) => ( not ( b0 = 0 ) ) ) )",
    ),
    (
        "( set3 ( 1 .. x ) BOOL s ( ( ( x / b2 ) = 1 ) & ( b1 = TRUE ) ) )",
        "( !ibi ( ( ( ( b2 : ( 1 .. x ) ) & ( b1 : BOOL ) ) & ( b0 : s ) ) => ( not ( b2 = 0 ) ) ) )",
    ),
    (
        "( set2 ( 1 .. ( x / y ) ) ( 1 .. ( y / x ) ) ( b1 = b0 ) )",
        "( ( not ( y = 0 ) ) & ( not ( x = 0 ) ) )",
    ),
    (
        "( set1 ( 1 .. ( x / y ) ) ( ( x / b0 ) = 1 ) )",
        "( ( not ( y = 0 ) ) & ( !i ( ( b0 : ( 1 .. ( x / y ) ) ) => ( not ( b0 = 0 ) ) ) ) )",
    ),
    (
        "( fun1 ( 1 .. x ) ( y < 1 ) ( x / b0 ) )",
        "( !i ( ( b0 : ( 1 .. x ) ) => ( ( y < 1 ) => ( not ( b0 = 0 ) ) ) ) )",
    ),
    (
        "( fun1 ( 1 .. x ) ( ( x / b0 ) = 1 ) ( y / b0 ) )",
        "( !i ( ( b0 : ( 1 .. x ) ) => ( ( not ( b0 = 0 ) ) & ( ( ( x / b0 ) = 1 ) => ( not ( b0 = 0 ) ) ) ) ) )",
    ),
    (
        "( fun2 ( 1 .. x ) BOOL btrue ( x / b1 ) )",
        "( !ib ( ( ( b1 : ( 1 .. x ) ) & ( b0 : BOOL ) ) => ( not ( b1 = 0 ) ) ) )",
    ),
    ("( fun1 ( 1 .. x ) ( y < 1 ) ( x + b0 ) )", "btrue"),
    (
        "( !i ( ( fun1 ( 1 .. b0 ) ( ( x / b0 ) = 1 ) b0 ) = f ) )",
        "( !i ( !i ( ( b0 : ( 1 .. b1 ) ) => ( not ( b0 = 0 ) ) ) ) )",
    ),
    (
        "( !i ( ( set2 ( 1 .. b0 ) ( 2 .. b0 ) ( ( x / b2 ) = 1 ) ) = {}PXii ) )",
        "( !i ( !ii ( ( ( b1 : ( 1 .. b2 ) ) & ( b0 : ( 2 .. b2 ) ) ) => ( not ( b2 = 0 ) ) ) ) )",
    ),
];

// Executed expressions on a machine whose numbers go to 9, where f is an array over 1..5, g one over BOOL and h one over C.
pub(crate) const EXECUTED: &[(&str, &str)] = &[
    ("( x + y )", "( ( -9 <= ( x + y ) ) & ( ( x + y ) <= 9 ) )"),
    ("( x - y )", "( ( -9 <= ( x - y ) ) & ( ( x - y ) <= 9 ) )"),
    ("( x * y )", "( ( -9 <= ( x * y ) ) & ( ( x * y ) <= 9 ) )"),
    ("( x / y )", "( not ( y = 0 ) )"),
    ("( x mod y )", "( ( 0 <= x ) & ( 0 < y ) )"),
    ("( f of x )", "( ( 1 <= x ) & ( x <= 5 ) )"),
    ("( g of p )", "btrue"),
    ("( h of c1 )", "btrue"),
    ("( s of x )", "btrue"),
    ("( neg x )", "btrue"),
    ("( x = y )", "btrue"),
    ("( x < y )", "btrue"),
    ("( x <= y )", "btrue"),
    ("x", "btrue"),
    ("10", "btrue"),
    ("c1", "btrue"),
    (
        "( neg ( x + y ) )",
        "( ( -9 <= ( x + y ) ) & ( ( x + y ) <= 9 ) )",
    ),
    ("( not ( ( x / y ) = 1 ) )", "( not ( y = 0 ) )"),
    ("( g of ( bool ( ( x / y ) = 1 ) ) )", "( not ( y = 0 ) )"),
    (
        "( x - ( y + 1 ) )",
        "( ( ( -9 <= ( y + 1 ) ) & ( ( y + 1 ) <= 9 ) ) & ( ( -9 <= ( x - ( y + 1 ) ) ) & ( ( x - ( y + 1 ) ) <= 9 ) ) )",
    ),
    (
        "( f of ( x + 1 ) )",
        "( ( ( -9 <= ( x + 1 ) ) & ( ( x + 1 ) <= 9 ) ) & ( ( 1 <= ( x + 1 ) ) & ( ( x + 1 ) <= 5 ) ) )",
    ),
    (
        "( ( y < 1 ) & ( ( x / y ) = 1 ) )",
        "( ( y < 1 ) => ( not ( y = 0 ) ) )",
    ),
    (
        "( ( y < 1 ) => ( ( x / y ) = 1 ) )",
        "( ( y < 1 ) => ( not ( y = 0 ) ) )",
    ),
    (
        "( ( y < 1 ) or ( ( x / y ) = 1 ) )",
        "( ( not ( y < 1 ) ) => ( not ( y = 0 ) ) )",
    ),
    ("( ( ( x / y ) = 1 ) or ( y < 1 ) )", "( not ( y = 0 ) )"),
    ("( !i ( ( x / b0 ) = 1 ) )", "( !i ( not ( b0 = 0 ) ) )"),
    ("( set1 ( 1 .. x ) ( ( x / b0 ) = 1 ) )", "btrue"),
];
