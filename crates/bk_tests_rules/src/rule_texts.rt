// Each rule where it is a step: the sequent, and the sequents that come of it; and where it is none. The letters x, y, u and w
// stand for whole numbers, s and t for sets of them, r for a relation between them and truth values, q for one between truth values
// and elements of C, z for a pair of a whole number and a truth value, p for a truth value, c for an element of C, and f for a
// relation between whole numbers.

use crate::reading::Claim;
use crate::stating::Step;

// ---- rules that leave nothing to prove
pub(crate) const CLOSING: [Step; 16] = [
    ("hyp 2", ("( x <= 3 ), ( y <= 5 )", "( y <= 5 )"), &[]),
    ("true", ("", "btrue"), &[]),
    ("same", ("", "( s = s )"), &[]),
    ("eval", ("", "( ( 2 * 3 ) = 6 )"), &[]),
    ("eval", ("", "( 1 < 2 )"), &[]),
    ("eval", ("", "( -1 <= ( neg 1 ) )"), &[]),
    ("eval", ("", "( ( 2 + 3 ) : ( 0 .. 5 ) )"), &[]),
    ("eval", ("", "( 0 : NATURAL )"), &[]),
    ("eval", ("", "( 1 : NATURAL1 )"), &[]),
    ("false 2", ("btrue, bfalse", "( x <= 3 )"), &[]),
    (
        "absurd 1 2",
        ("( y <= 5 ), ( not ( y <= 5 ) )", "( x <= 3 )"),
        &[],
    ),
    ("interval 1", ("( x : ( 5 .. 4 ) )", "( x <= 3 )"), &[]),
    (
        "poly",
        (
            "",
            "( ( ( x + y ) * ( x + y ) ) = ( ( x * x ) + ( ( 2 * ( y * x ) ) + ( y * y ) ) ) )",
        ),
        &[],
    ),
    ("poly", ("", "( ( neg ( x - y ) ) = ( y - x ) )"), &[]),
    ("poly", ("", "( s = s )"), &[]),
    ("lin 1 : 1 2", ("( x <= 3 )", "( x <= 4 )"), &[]),
];

pub(crate) const NOT_CLOSING: [(&str, Claim<'static>); 22] = [
    ("hyp 1", ("( x <= 3 ), ( y <= 5 )", "( y <= 5 )")),
    ("hyp 0", ("( y <= 5 )", "( y <= 5 )")),
    ("hyp 2", ("( y <= 5 )", "( y <= 5 )")),
    ("true", ("", "( x = x )")),
    ("same", ("", "( x = y )")),
    ("same", ("", "( x <= x )")),
    ("eval", ("", "( 2 < 2 )")),
    ("eval", ("", "( 6 : ( 0 .. 5 ) )")),
    ("eval", ("", "( 0 : NATURAL1 )")),
    ("eval", ("", "( x = x )")),
    ("eval", ("", "( 0 : INTEGER )")),
    ("eval", ("", "( c0 = c0 )")),
    ("eval", ("", "btrue")),
    ("false 1", ("btrue, bfalse", "( x <= 3 )")),
    (
        "absurd 2 1",
        ("( y <= 5 ), ( not ( y <= 5 ) )", "( x <= 3 )"),
    ),
    (
        "absurd 1 3",
        ("( y <= 5 ), ( not ( y <= 5 ) )", "( x <= 3 )"),
    ),
    (
        "poly",
        (
            "",
            "( ( ( x + y ) * ( x + y ) ) = ( ( x * x ) + ( y * y ) ) )",
        ),
    ),
    ("poly", ("", "( s = t )")),
    ("poly", ("", "( x <= x )")),
    ("lin 1 : 1", ("( x <= 3 )", "( x <= 4 )")),
    ("lin 2 : 1 2", ("( x <= 3 )", "( x <= 4 )")),
    ("unread", ("( y <= 5 )", "( y <= 5 )")),
];

// ---- connectives of the goal
pub(crate) const CONNECTIVES: [Step; 8] = [
    (
        "and",
        ("( y <= 5 )", "( ( x <= 3 ) & ( x <= 4 ) )"),
        &[("( y <= 5 )", "( x <= 3 )"), ("( y <= 5 )", "( x <= 4 )")],
    ),
    (
        "iff",
        ("( y <= 5 )", "( ( x <= 3 ) <=> ( x <= 4 ) )"),
        &[
            ("( y <= 5 )", "( ( x <= 3 ) => ( x <= 4 ) )"),
            ("( y <= 5 )", "( ( x <= 4 ) => ( x <= 3 ) )"),
        ],
    ),
    (
        "imp",
        ("( y <= 5 )", "( ( x <= 3 ) => ( x <= 4 ) )"),
        &[("( y <= 5 ), ( x <= 3 )", "( x <= 4 )")],
    ),
    (
        "not",
        ("( y <= 5 )", "( not ( x <= 3 ) )"),
        &[("( y <= 5 ), ( x <= 3 )", "bfalse")],
    ),
    (
        "left",
        ("( y <= 5 )", "( ( x <= 3 ) or ( x <= 4 ) )"),
        &[("( y <= 5 )", "( x <= 3 )")],
    ),
    (
        "right",
        ("( y <= 5 )", "( ( x <= 3 ) or ( x <= 4 ) )"),
        &[("( y <= 5 )", "( x <= 4 )")],
    ),
    (
        "or",
        ("( y <= 5 )", "( ( x <= 3 ) or ( x <= 4 ) )"),
        &[("( y <= 5 ), ( not ( x <= 3 ) )", "( x <= 4 )")],
    ),
    (
        "contra",
        ("( y <= 5 )", "( x <= 3 )"),
        &[("( y <= 5 ), ( not ( x <= 3 ) )", "bfalse")],
    ),
];

pub(crate) const OTHER_CONNECTIVES: [(&str, Claim<'static>); 8] = [
    ("and", ("", "( ( x <= 3 ) or ( x <= 4 ) )")),
    ("iff", ("", "( ( x <= 3 ) => ( x <= 4 ) )")),
    ("imp", ("", "( ( x <= 3 ) <=> ( x <= 4 ) )")),
    ("imp", ("", "( not ( x <= 3 ) )")),
    ("not", ("", "( ( x <= 3 ) => bfalse )")),
    ("left", ("", "( ( x <= 3 ) & ( x <= 4 ) )")),
    ("right", ("", "( ( x <= 3 ) & ( x <= 4 ) )")),
    ("or", ("", "( ( x <= 3 ) & ( x <= 4 ) )")),
];

// ---- hypotheses, and predicates that a script brings
pub(crate) const HYPOTHESES: [Step; 6] = [
    (
        "split 1",
        ("( ( x <= 3 ) & ( x <= 4 ) )", "( y <= 5 )"),
        &[(
            "( ( x <= 3 ) & ( x <= 4 ) ), ( x <= 3 ), ( x <= 4 )",
            "( y <= 5 )",
        )],
    ),
    (
        "cases 1",
        ("( ( x <= 3 ) or ( x <= 4 ) )", "( y <= 5 )"),
        &[
            ("( ( x <= 3 ) or ( x <= 4 ) ), ( x <= 3 )", "( y <= 5 )"),
            ("( ( x <= 3 ) or ( x <= 4 ) ), ( x <= 4 )", "( y <= 5 )"),
        ],
    ),
    (
        "apply 2",
        ("btrue, ( ( x <= 3 ) => ( x <= 4 ) )", "( y <= 5 )"),
        &[
            ("btrue, ( ( x <= 3 ) => ( x <= 4 ) )", "( x <= 3 )"),
            (
                "btrue, ( ( x <= 3 ) => ( x <= 4 ) ), ( x <= 4 )",
                "( y <= 5 )",
            ),
        ],
    ),
    (
        "cut : ( x <= 3 )",
        ("btrue", "( y <= 5 )"),
        &[("btrue", "( x <= 3 )"), ("btrue, ( x <= 3 )", "( y <= 5 )")],
    ),
    (
        "case : ( x <= 3 )",
        ("btrue", "( y <= 5 )"),
        &[
            ("btrue, ( x <= 3 )", "( y <= 5 )"),
            ("btrue, ( not ( x <= 3 ) )", "( y <= 5 )"),
        ],
    ),
    (
        "drop 2",
        ("( x <= 3 ), ( x <= 4 ), btrue", "( y <= 5 )"),
        &[("( x <= 3 ), btrue", "( y <= 5 )")],
    ),
];

// a number is no predicate
pub(crate) const OTHER_HYPOTHESES: [(&str, Claim<'static>); 8] = [
    ("split 1", ("( ( x <= 3 ) or ( x <= 4 ) )", "( y <= 5 )")),
    ("split 2", ("( ( x <= 3 ) & ( x <= 4 ) )", "( y <= 5 )")),
    ("cases 1", ("( ( x <= 3 ) & ( x <= 4 ) )", "( y <= 5 )")),
    ("apply 1", ("( ( x <= 3 ) <=> ( x <= 4 ) )", "( y <= 5 )")),
    ("cut : x", ("", "( y <= 5 )")),
    ("case : x", ("", "( y <= 5 )")),
    ("drop 0", ("( x <= 3 )", "( y <= 5 )")),
    ("drop 2", ("( x <= 3 )", "( y <= 5 )")),
];

// ---- quantifiers: the last name or term is the innermost one
pub(crate) const QUANTIFIERS: [Step; 6] = [
    (
        "fix u",
        ("( y <= 5 )", "( !i ( b0 <= x ) )"),
        &[("( y <= 5 )", "( u <= x )")],
    ),
    (
        "fix u w",
        ("", "( !ii ( b1 <= b0 ) )"),
        &[("", "( u <= w )")],
    ),
    (
        "open 1 u",
        ("( #i ( b0 <= 2 ) )", "( x <= 5 )"),
        &[("( #i ( b0 <= 2 ) ), ( u <= 2 )", "( x <= 5 )")],
    ),
    (
        "use : ( y + 1 ), s",
        ("", "( #iPi ( b1 : b0 ) )"),
        &[("", "( ( y + 1 ) : s )")],
    ),
    (
        "inst 1 : 7",
        ("( !i ( b0 <= x ) )", "( y <= 5 )"),
        &[("( !i ( b0 <= x ) ), ( 7 <= x )", "( y <= 5 )")],
    ),
    // a term under a binder stays what it is
    (
        "inst 1 : x",
        ("( !i ( #i ( b1 <= b0 ) ) )", "( y <= 5 )"),
        &[(
            "( !i ( #i ( b1 <= b0 ) ) ), ( #i ( x <= b0 ) )",
            "( y <= 5 )",
        )],
    ),
];

// names that are not new or have another type, terms of other types, and other numbers of them
pub(crate) const OTHER_QUANTIFIERS: [(&str, Claim<'static>); 17] = [
    ("fix u", ("( u <= 5 )", "( !i ( b0 <= x ) )")),
    ("fix x", ("", "( !i ( b0 <= x ) )")),
    ("fix s", ("", "( !i ( b0 <= x ) )")),
    ("fix u u", ("", "( !ii ( b1 <= b0 ) )")),
    ("fix u", ("", "( !ii ( b1 <= b0 ) )")),
    ("fix u w", ("", "( !i ( b0 <= x ) )")),
    ("fix u", ("", "( #i ( b0 <= x ) )")),
    ("open 1 x", ("( #i ( b0 <= 2 ) )", "( x <= 5 )")),
    ("open 1 x", ("( #i ( b0 <= x ) )", "( y <= 5 )")),
    ("open 1 s", ("( #i ( b0 <= 2 ) )", "( x <= 5 )")),
    ("open 1 u", ("( !i ( b0 <= 2 ) )", "( x <= 5 )")),
    ("use : s, ( y + 1 )", ("", "( #iPi ( b1 : b0 ) )")),
    ("use : ( y + 1 )", ("", "( #iPi ( b1 : b0 ) )")),
    ("use : y", ("", "( !i ( b0 <= 2 ) )")),
    ("inst 1 : TRUE", ("( !i ( b0 <= x ) )", "( y <= 5 )")),
    ("inst 1 : 7, 8", ("( !i ( b0 <= x ) )", "( y <= 5 )")),
    ("inst 1 : 7", ("( #i ( b0 <= x ) )", "( y <= 5 )")),
];

// ---- equations and laws: sides come first, and a changed hypothesis is one more
pub(crate) const EQUATIONS_AND_LAWS: [Step; 9] = [
    (
        "eq 1 goal 1",
        ("( x = y )", "( x <= y )"),
        &[("( x = y )", "( y <= y )")],
    ),
    (
        "qe 1 goal 2",
        ("( x = y )", "( x <= y )"),
        &[("( x = y )", "( x <= x )")],
    ),
    (
        "eq 2 hyp 1 1",
        ("( x <= 3 ), ( x = y )", "( y <= 5 )"),
        &[("( x <= 3 ), ( x = y ), ( y <= 3 )", "( y <= 5 )")],
    ),
    (
        "law 201 goal 1 : x, s, t",
        ("", "( not ( x : ( s \\/ t ) ) )"),
        &[("", "( not ( ( x : s ) or ( x : t ) ) )")],
    ),
    (
        "wal 201 goal 1 : x, s, t",
        ("", "( not ( ( x : s ) or ( x : t ) ) )"),
        &[("", "( not ( x : ( s \\/ t ) ) )")],
    ),
    (
        "wal 18 goal : ( x <= 3 )",
        ("", "btrue"),
        &[("", "( ( x <= 3 ) => btrue )")],
    ),
    (
        "law 308 hyp 1 : x, r, p",
        ("( x : ( dom r ) )", "( y <= 5 )"),
        &[
            ("( x : ( dom r ) )", "( ( x |-> p ) : r )"),
            ("( x : ( dom r ) ), btrue", "( y <= 5 )"),
        ],
    ),
    (
        "law 114 goal : x, y",
        ("", "( 0 <= ( x * y ) )"),
        &[("", "( 0 <= x )"), ("", "( 0 <= y )"), ("", "btrue")],
    ),
    (
        "law 230 goal 1 : s, {}Pi",
        ("", "( ( s minus s ) = t )"),
        &[("", "( {}Pi = t )")],
    ),
];

// another formula, a place that is not there, a formula that does not type, one of another type, no law of that number, and another
// number of picks
pub(crate) const OTHER_EQUATIONS_AND_LAWS: [(&str, Claim<'static>); 9] = [
    ("eq 1 goal 2", ("( x = y )", "( x <= y )")),
    ("qe 1 goal 1", ("( x = y )", "( x <= y )")),
    ("eq 1 goal 3", ("( x = y )", "( x <= y )")),
    ("eq 1 hyp 2 1", ("( x <= 3 ), ( x = y )", "( y <= 5 )")),
    ("law 201 goal : x, s, t", ("", "( ( x : s ) or ( x : t ) )")),
    ("wal 18 goal : x", ("", "btrue")),
    ("law 230 goal 1 : s, {}Pb", ("", "( ( s minus s ) = t )")),
    ("law 29 goal : x", ("", "btrue")),
    ("law 308 hyp 1 : x, r", ("( x : ( dom r ) )", "( y <= 5 )")),
];

// ---- what comes for formulas of one kind
pub(crate) const DECIDED_AND_TYPED: [Step; 8] = [
    ("eval goal", ("", "( 2 <= 1 )"), &[("", "bfalse")]),
    (
        "eval goal 1",
        ("", "( not ( 2 : ( 1 .. 3 ) ) )"),
        &[("", "( not btrue )")],
    ),
    ("eval goal", ("", "( c0 = c1 )"), &[("", "bfalse")]),
    ("eval goal", ("", "( c1 = c1 )"), &[("", "btrue")]),
    ("eval goal", ("", "( TRUE = FALSE )"), &[("", "bfalse")]),
    ("type goal", ("", "( x : INTEGER )"), &[("", "btrue")]),
    ("type goal", ("", "( p : BOOL )"), &[("", "btrue")]),
    ("type goal", ("", "( c : C )"), &[("", "btrue")]),
];

pub(crate) const QUANTIFIED: [Step; 6] = [
    (
        "neg goal",
        ("", "( not ( !i ( b0 <= 3 ) ) )"),
        &[("", "( #i ( not ( b0 <= 3 ) ) )")],
    ),
    (
        "neg goal",
        ("", "( not ( #ib ( b0 = p ) ) )"),
        &[("", "( !ib ( not ( b0 = p ) ) )")],
    ),
    (
        "ext goal",
        ("", "( s = t )"),
        &[("", "( !i ( ( b0 : s ) <=> ( b0 : t ) ) )")],
    ),
    (
        "ext goal",
        ("", "( r = {}PXib )"),
        &[("", "( !Xib ( ( b0 : r ) <=> ( b0 : {}PXib ) ) )")],
    ),
    (
        "sub goal",
        ("", "( s : ( POW NATURAL ) )"),
        &[("", "( !i ( ( b0 : s ) => ( b0 : NATURAL ) ) )")],
    ),
    (
        "sub hyp 1",
        ("( s : ( POW t ) )", "bfalse"),
        &[(
            "( s : ( POW t ) ), ( !i ( ( b0 : s ) => ( b0 : t ) ) )",
            "bfalse",
        )],
    ),
];

// of a lambda applied first what the terms meet, then the value
pub(crate) const MEMBERS: [Step; 6] = [
    (
        "mem goal",
        ("", "( x : ( set1 s ( b0 <= 2 ) ) )"),
        &[("", "( ( x : s ) & ( x <= 2 ) )")],
    ),
    (
        "mem goal",
        ("", "( x : ( set1 s btrue ) )"),
        &[("", "( ( x : s ) & btrue )")],
    ),
    (
        "mem goal",
        ("", "( ( x |-> y ) : ( set2 s t ( b1 <= b0 ) ) )"),
        &[("", "( ( ( x : s ) & ( y : t ) ) & ( x <= y ) )")],
    ),
    (
        "mem goal",
        ("", "( ( x |-> y ) : ( fun1 s ( b0 <= 2 ) ( b0 + 1 ) ) )"),
        &[("", "( ( ( x : s ) & ( x <= 2 ) ) & ( y = ( x + 1 ) ) )")],
    ),
    (
        "val goal 1",
        ("", "( ( ( fun1 s ( b0 <= 2 ) ( b0 + 1 ) ) of x ) <= 5 )"),
        &[
            ("", "( ( x : s ) & ( x <= 2 ) )"),
            ("", "( ( x + 1 ) <= 5 )"),
        ],
    ),
    (
        "val goal 1",
        (
            "",
            "( ( ( fun2 s t ( b1 <= b0 ) ( b1 - b0 ) ) of ( x |-> y ) ) <= 5 )",
        ),
        &[
            ("", "( ( ( x : s ) & ( y : t ) ) & ( x <= y ) )"),
            ("", "( ( x - y ) <= 5 )"),
        ],
    ),
];

pub(crate) const WITNESSES: [Step; 4] = [
    (
        "ex goal",
        ("", "( x : ( dom r ) )"),
        &[("", "( #b ( ( x |-> b0 ) : r ) )")],
    ),
    (
        "ex goal",
        ("", "( p : ( ran r ) )"),
        &[("", "( #i ( ( b0 |-> p ) : r ) )")],
    ),
    (
        "ex goal",
        ("", "( p : ( r image s ) )"),
        &[("", "( #i ( ( b0 : s ) & ( ( b0 |-> p ) : r ) ) )")],
    ),
    (
        "ex goal",
        ("", "( ( x |-> c ) : ( r ; q ) )"),
        &[("", "( #b ( ( ( x |-> b0 ) : r ) & ( ( b0 |-> c ) : q ) ) )")],
    ),
];

// a variable is no written pair
pub(crate) const OTHER_KINDS: [(&str, Claim<'static>); 16] = [
    ("eval goal", ("", "( x = x )")),
    ("eval goal", ("", "( x <= 3 )")),
    ("type goal", ("", "( x : NATURAL )")),
    ("type goal", ("", "( x : s )")),
    ("neg goal", ("", "( not btrue )")),
    ("neg goal", ("", "( !i ( b0 <= 3 ) )")),
    ("ext goal", ("", "( x = y )")),
    ("ext goal", ("", "( s : ( POW t ) )")),
    ("sub goal", ("", "( x : s )")),
    ("sub goal", ("", "( s : ( POW1 t ) )")),
    ("mem goal", ("", "( x : s )")),
    ("mem goal", ("", "( z : ( set2 s ( ran r ) btrue ) )")),
    ("mem goal", ("", "( z : ( fun1 s btrue p ) )")),
    ("val goal 1", ("", "( ( f of x ) <= 5 )")),
    ("ex goal", ("", "( x : s )")),
    ("ex goal", ("", "( z : ( r ; ( id BOOL ) ) )")),
];

// ---- cases of finite types, and induction, also where the variable stands under a binder
pub(crate) const CASES: [Step; 6] = [
    (
        "pair : z",
        ("btrue", "( x <= 3 )"),
        &[("btrue, ( #ib ( z = ( b1 |-> b0 ) ) )", "( x <= 3 )")],
    ),
    (
        "elems : p",
        ("", "( x <= 3 )"),
        &[
            ("( p = FALSE )", "( x <= 3 )"),
            ("( p = TRUE )", "( x <= 3 )"),
        ],
    ),
    (
        "elems : c",
        ("", "( x <= 3 )"),
        &[("( c = c0 )", "( x <= 3 )"), ("( c = c1 )", "( x <= 3 )")],
    ),
    (
        "interval 1",
        ("( x : ( -1 .. 1 ) )", "( x <= 3 )"),
        &[
            ("( x : ( -1 .. 1 ) ), ( x = -1 )", "( x <= 3 )"),
            ("( x : ( -1 .. 1 ) ), ( x = 0 )", "( x <= 3 )"),
            ("( x : ( -1 .. 1 ) ), ( x = 1 )", "( x <= 3 )"),
        ],
    ),
    (
        "induct",
        (
            "btrue",
            "( !i ( ( b0 : NATURAL ) => ( x <= ( x + b0 ) ) ) )",
        ),
        &[
            ("btrue", "( x <= ( x + 0 ) )"),
            (
                "btrue",
                "( !i ( ( ( b0 : NATURAL ) & ( x <= ( x + b0 ) ) ) => ( x <= ( x + ( b0 + 1 ) ) ) ) )",
            ),
        ],
    ),
    (
        "induct",
        ("", "( !i ( ( b0 : NATURAL ) => ( #i ( b1 <= b0 ) ) ) )"),
        &[
            ("", "( #i ( 0 <= b0 ) )"),
            (
                "",
                "( !i ( ( ( b0 : NATURAL ) & ( #i ( b1 <= b0 ) ) ) => ( #i ( ( b1 + 1 ) <= b0 ) ) ) )",
            ),
        ],
    ),
];

pub(crate) const OTHER_CASES: [(&str, Claim<'static>); 7] = [
    ("pair : x", ("", "( x <= 3 )")),
    ("elems : x", ("", "( x <= 3 )")),
    ("interval 1", ("( x : ( 0 .. 64 ) )", "( x <= 3 )")),
    ("interval 1", ("( x : ( 0 .. ( 1 + 1 ) ) )", "( x <= 3 )")),
    ("interval 1", ("( x : NATURAL )", "( x <= 3 )")),
    (
        "induct",
        ("", "( !i ( ( b0 : NATURAL1 ) => ( 0 <= b0 ) ) )"),
    ),
    (
        "induct",
        ("", "( !ii ( ( b0 : NATURAL ) => ( 0 <= b0 ) ) )"),
    ),
];
