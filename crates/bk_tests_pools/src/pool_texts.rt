// Formulas as texts, and how many a pool has after each. The letters stand for the variables 0 to 2.

pub(crate) const LETTERS: &str = "xyz";

// Formulas that are shared into one pool in this order, and the pool's count after each.
pub(crate) const SHARED: [(&str, u64); 37] = [
    ("x", 1),
    ("x", 1),
    ("( x + x )", 2),
    ("( x + y )", 4),
    ("( y + x )", 5),
    ("( x - y )", 6),
    ("( ( x + y ) - ( x + y ) )", 7),
    ("( ( x + y ) - ( x + z ) )", 10),
    ("5", 11),
    ("-5", 12),
    ("( x < 5 )", 13),
    ("( not ( x < 5 ) )", 14),
    ("( ( x < 5 ) & ( not ( x < 5 ) ) )", 15),
    ("b0", 16),
    ("b1", 17),
    ("( !i ( b0 < x ) )", 19),
    ("( !i ( b0 < x ) )", 19),
    ("( #i ( b0 < x ) )", 20),
    ("( !b ( b0 < x ) )", 21),
    ("( !ii ( b0 < x ) )", 22),
    ("( !ib ( b0 < x ) )", 23),
    ("( #ib ( b0 < x ) )", 24),
    ("{}Pi", 25),
    ("{}Pb", 26),
    ("{}Pi", 26),
    ("( 1 .. x )", 28),
    ("( set1 ( 1 .. x ) ( b0 < x ) )", 29),
    ("( set2 ( 1 .. x ) ( 1 .. x ) ( b0 < x ) )", 30),
    ("( set2 ( 1 .. x ) ( 1 .. y ) ( b0 < x ) )", 32),
    ("( set2 ( 1 .. y ) ( 1 .. x ) ( b0 < x ) )", 33),
    ("( set2 ( 1 .. x ) ( 1 .. y ) ( b0 < x ) )", 33),
    ("( fun1 ( 1 .. x ) ( b0 < x ) x )", 34),
    ("( fun1 ( 1 .. x ) ( b0 < x ) y )", 35),
    ("( fun2 ( 1 .. x ) ( 1 .. y ) ( b0 < x ) x )", 36),
    ("( c0 = c1 )", 39),
    ("( d0 = c0 )", 41),
    ("( ( x : INTEGER ) & ( TRUE = FALSE ) )", 47),
];

// What `IF n < 5 THEN skip ELSE skip END` asks for a condition y to hold after it, x being n.
pub(crate) const BEFORE: &str = "( ( ( x < 5 ) => y ) & ( ( not ( x < 5 ) ) => y ) )";

// The condition after all of them.
pub(crate) const AFTER: &str = "( x = 0 )";
