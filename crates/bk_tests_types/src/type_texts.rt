// Formulas as texts, and what they stand for. The letters stand for variables of the types below; z stands for none. The table
// lists the set C of two elements, and not the set D.

pub(crate) const LETTERS: &str = "xpcstrqz";

// The types of the letters but the last.
pub(crate) const TYPES: [&str; 7] = ["i", "b", "c", "Pi", "Pb", "PXib", "PXbc"];

// Formulas of one word and their types.
pub(crate) const WORDS: [(&str, &str); 12] = [
    ("x", "i"),
    ("c", "c"),
    ("r", "PXib"),
    ("3", "i"),
    ("TRUE", "b"),
    ("FALSE", "b"),
    ("c0", "c"),
    ("c1", "c"),
    ("{}Pb", "Pb"),
    ("{}PXcPi", "PXcPi"),
    ("BOOL", "Pb"),
    ("C", "Pc"),
];

// Operators on numbers and sets.
pub(crate) const NUMBERS_AND_SETS: [(&str, &str); 21] = [
    ("( x + 1 )", "i"),
    ("( x - 1 )", "i"),
    ("( x * 2 )", "i"),
    ("( x / 2 )", "i"),
    ("( x mod 2 )", "i"),
    ("( x ** 2 )", "i"),
    ("( neg x )", "i"),
    ("( card t )", "i"),
    ("( card r )", "i"),
    ("( min s )", "i"),
    ("( max ( 1 .. 3 ) )", "i"),
    ("( 1 .. x )", "Pi"),
    ("( s \\/ {}Pi )", "Pi"),
    ("( r /\\ r )", "PXib"),
    ("( t minus BOOL )", "Pb"),
    ("( s times t )", "PXib"),
    ("( C times ( s times t ) )", "PXcXib"),
    ("( single c )", "Pc"),
    ("( single s )", "PPi"),
    ("( bool ( x = 1 ) )", "b"),
    ("( x |-> ( p |-> c ) )", "XiXbc"),
];

// Operators on relations.
pub(crate) const RELATIONS: [(&str, &str); 13] = [
    ("( dom r )", "Pi"),
    ("( ran r )", "Pb"),
    ("( ~ r )", "PXbi"),
    ("( r image s )", "Pb"),
    ("( r of x )", "b"),
    ("( q of ( r of x ) )", "c"),
    ("( s <| r )", "PXib"),
    ("( s <<| r )", "PXib"),
    ("( r |> t )", "PXib"),
    ("( r |>> t )", "PXib"),
    ("( r <+ ( s times t ) )", "PXib"),
    ("( r ; q )", "PXic"),
    ("( id t )", "PXbb"),
];

// Comprehensions and lambdas: the elements are tuples to the left.
pub(crate) const BINDERS: [(&str, &str); 8] = [
    ("( set1 s ( b0 < x ) )", "Pi"),
    ("( set2 s t ( ( b1 = 1 ) & ( b0 = p ) ) )", "PXib"),
    (
        "( set3 s t C ( ( b2 = x ) & ( ( b1 = p ) & ( b0 = c ) ) ) )",
        "PXXibc",
    ),
    ("( set2 s ( r image s ) btrue )", "PXib"),
    ("( fun1 s btrue ( b0 |-> p ) )", "PXiXib"),
    ("( fun2 s t ( b0 = p ) b1 )", "PXXibi"),
    ("( fun1 C btrue ( set1 s ( b0 < x ) ) )", "PXcPi"),
    ("( set1 ( set1 t ( b0 = p ) ) ( b0 = TRUE ) )", "Pb"),
];

// Domains that are no values, and what they range over.
pub(crate) const DOMAINS: &[(&str, &str)] = &[
    ("INTEGER", "i"),
    ("NATURAL", "i"),
    ("NATURAL1", "i"),
    ("( POW INTEGER )", "Pi"),
    ("( POW1 NATURAL )", "Pi"),
    ("( POW t )", "Pb"),
    ("( POW1 C )", "Pc"),
    ("( POW ( POW1 s ) )", "PPi"),
    ("( INTEGER times t )", "Xib"),
    ("( C times NATURAL )", "Xci"),
    ("( INTEGER times ( POW t ) )", "XiPb"),
    ("( s <-> t )", "PXib"),
    ("( INTEGER +-> ( POW C ) )", "PXiPc"),
    ("( s --> NATURAL )", "PXii"),
    ("( t >+> s )", "PXbi"),
    ("( C >-> INTEGER )", "PXci"),
    ("( INTEGER +->> t )", "PXib"),
    ("( s -->> C )", "PXic"),
    ("( t >->> C )", "PXbc"),
    ("( ( s times t ) +-> INTEGER )", "PXXibi"),
];

// Predicates.
pub(crate) const PREDICATES: &[&str] = &[
    "btrue",
    "bfalse",
    "( x : s )",
    "( x : NATURAL )",
    "( s : ( POW INTEGER ) )",
    "( r : ( INTEGER +-> BOOL ) )",
    "( ( x |-> p ) : ( INTEGER times BOOL ) )",
    "( ( x |-> p ) : r )",
    "( x = 1 )",
    "( p = ( bool btrue ) )",
    "( r = ( s times t ) )",
    "( s = {}Pi )",
    "( x < 1 )",
    "( x <= 1 )",
    "( ( x = 1 ) & btrue )",
    "( ( x = 1 ) or btrue )",
    "( ( x = 1 ) => btrue )",
    "( ( x = 1 ) <=> btrue )",
    "( not ( x = 1 ) )",
    "( !i ( b0 = x ) )",
    "( #b ( b0 = p ) )",
    "( !ib ( ( b1 = x ) & ( b0 = p ) ) )",
    "( #Pi ( x : b0 ) )",
    "( !c ( #i ( ( b1 = c ) & ( b0 = x ) ) ) )",
];

// Words, and operators on numbers and sets, that stand for nothing.
pub(crate) const UNTYPED: [&str; 37] = [
    "z",
    "b0",
    "c2",
    "d0",
    "D",
    "{}i",
    "{}Pd",
    "{}PXid",
    "( x + TRUE )",
    "( s - s )",
    "( s * s )",
    "( p / 2 )",
    "( x mod s )",
    "( p ** 2 )",
    "( neg p )",
    "( card x )",
    "( card INTEGER )",
    "( min t )",
    "( max NATURAL )",
    "( 1 .. TRUE )",
    "( s \\/ t )",
    "( s \\/ {}Pb )",
    "( x \\/ x )",
    "( s /\\ INTEGER )",
    "( x minus x )",
    "( s minus r )",
    "( x times x )",
    "( s times p )",
    "( single INTEGER )",
    "( single btrue )",
    "( bool p )",
    "( x |-> INTEGER )",
    "( btrue |-> x )",
    "( z |-> x )",
    "( POW x )",
    "( POW1 btrue )",
    "( POW D )",
];

// Operators on relations and domains, and binders, that stand for nothing.
pub(crate) const UNTYPED_RELATIONS: [&str; 30] = [
    "( dom s )",
    "( ran x )",
    "( ~ s )",
    "( r image t )",
    "( s image s )",
    "( r of p )",
    "( s of x )",
    "( r of s )",
    "( t <| r )",
    "( t <<| r )",
    "( r |> s )",
    "( r |>> s )",
    "( r <| s )",
    "( r <+ q )",
    "( r <+ s )",
    "( q ; r )",
    "( r ; s )",
    "( id x )",
    "( id INTEGER )",
    "( x times INTEGER )",
    "( x +-> s )",
    "( s --> p )",
    "( r -->> btrue )",
    "( set1 INTEGER btrue )",
    "( set1 x btrue )",
    "( set1 s b0 )",
    "( set2 s t ( b1 = b0 ) )",
    "( set2 s ( single b0 ) btrue )",
    "( fun1 s b0 b0 )",
    "( fun1 s btrue INTEGER )",
];

// No predicates.
pub(crate) const UNTYPED_PREDICATES: [&str; 25] = [
    "( x : t )",
    "( p : NATURAL )",
    "( s : ( POW BOOL ) )",
    "( r : ( BOOL +-> INTEGER ) )",
    "( ( x |-> p ) : ( BOOL times INTEGER ) )",
    "( x : x )",
    "( INTEGER : ( POW INTEGER ) )",
    "( x = p )",
    "( s = {}Pb )",
    "( INTEGER = INTEGER )",
    "( btrue = btrue )",
    "( p < p )",
    "( x <= c )",
    "( x & btrue )",
    "( btrue or p )",
    "( s => btrue )",
    "( btrue <=> INTEGER )",
    "( not p )",
    "( !i b0 )",
    "( #b INTEGER )",
    "( !i ( b0 = p ) )",
    "( !ib ( b1 = p ) )",
    "( !d btrue )",
    "( #iPd btrue )",
    "( !i ( b1 = 1 ) )",
];

// Types that are bound around a formula, the innermost last, the formula, and its type.
pub(crate) const AROUND: &[(&str, &str, &str)] = &[
    ("ib", "b0", "b"),
    ("ib", "b1", "i"),
    ("Pib", "( b1 times ( single b0 ) )", "PXib"),
    ("Pi", "( set1 b0 ( b0 < x ) )", "Pi"),
    ("Pi", "( fun1 t ( b0 = p ) b1 )", "PXbPi"),
];

// The same, of formulas that stand for nothing.
pub(crate) const UNTYPED_AROUND: &[(&str, &str)] = &[
    ("ib", "b2"),
    ("d", "b0"),
    ("iPd", "( single b0 )"),
    ("b", "( set1 s ( b1 = x ) )"),
];
