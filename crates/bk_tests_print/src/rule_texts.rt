// Rules as they are written by hand, and as they are printed: a line each, after two blanks.

pub(crate) type Row = (&'static str, &'static str);

pub(crate) const ROWS: &[Row] = &[
    // none, and several
    ("", ""),
    ("hyp 1;and ;\nsame", "  hyp 1 ;\n  and ;\n  same\n"),
    // a word alone
    ("true", "  true\n"),
    ("same", "  same\n"),
    ("and", "  and\n"),
    ("iff", "  iff\n"),
    ("imp", "  imp\n"),
    ("not", "  not\n"),
    ("left", "  left\n"),
    ("right", "  right\n"),
    ("or", "  or\n"),
    ("contra", "  contra\n"),
    ("induct", "  induct\n"),
    ("poly", "  poly\n"),
    // numbers of hypotheses
    ("hyp 03", "  hyp 3\n"),
    ("false 4294967295", "  false 4294967295\n"),
    ("absurd 2 /* and */ 13", "  absurd 2 13\n"),
    ("split 3", "  split 3\n"),
    ("cases 3", "  cases 3\n"),
    ("apply 3", "  apply 3\n"),
    ("drop 0", "  drop 0\n"),
    ("interval 3", "  interval 3\n"),
    // places
    ("eval", "  eval\n"),
    ("eval goal", "  eval goal\n"),
    ("eval hyp 2 1 2", "  eval hyp 2 1 2\n"),
    ("eq 3 goal 1 01", "  eq 3 goal 1 1\n"),
    ("qe 3 hyp 4 2", "  qe 3 hyp 4 2\n"),
    ("type goal", "  type goal\n"),
    ("neg goal 1", "  neg goal 1\n"),
    ("mem hyp 7", "  mem hyp 7\n"),
    ("val goal 1", "  val goal 1\n"),
    ("ext goal", "  ext goal\n"),
    ("sub hyp 1", "  sub hyp 1\n"),
    ("ex goal", "  ex goal\n"),
    // terms
    ("cut n$0:0..10", "  cut n$0 : (0 .. 10)\n"),
    ("case n$0=0", "  case n$0 = 0\n"),
    ("cut n$0 - 1 - 2 <= -3", "  cut ((n$0 - 1) - 2) <= -3\n"),
    ("pair 1|->2", "  pair 1 |-> 2\n"),
    ("elems TRUE", "  elems TRUE\n"),
    ("elems ( a )", "  elems a\n"),
    ("use 1,n$0+2", "  use 1, n$0 + 2\n"),
    ("inst 3 f$0(n$0)", "  inst 3 f$0(n$0)\n"),
    (
        "cut {n$0} = {:POW(INTEGER)}",
        "  cut {n$0} = {:POW(INTEGER)}\n",
    ),
    (
        "cut dom((f$0 ; f$0)) = {1}",
        "  cut dom((f$0 ; f$0)) = {1}\n",
    ),
    (
        "cut !($1:INTEGER).($1 : 0..9 => f$0($1) = $1)",
        "  cut !($1:INTEGER).(($1 : (0 .. 9)) => (f$0($1) = $1))\n",
    ),
    // names, and terms with them
    ("fix u:INTEGER", "  fix u : INTEGER\n"),
    (
        "fix u : POW((INTEGER*BOOL)),w : S ; cut w : S",
        "  fix u : POW((INTEGER * BOOL)), w : S ;\n  cut w : S\n",
    ),
    (
        "open 3 u : INTEGER ; cut u < 3",
        "  open 3 u : INTEGER ;\n  cut u < 3\n",
    ),
    // laws: of each letter, with terms and without
    ("law G28 goal", "  law G28 goal\n"),
    ("law G28() goal", "  law G28 goal\n"),
    ("law O5(n$0+1,0,10)goal", "  law O5(n$0 + 1, 0, 10) goal\n"),
    (
        "law O5((n$0 + 1) * 2, 0, 10) goal",
        "  law O5((n$0 + 1) * 2, 0, 10) goal\n",
    ),
    ("law O30 goal", "  law O30 goal\n"),
    ("wal S5(a, b) hyp 2", "  wal S5(a, b) hyp 2\n"),
    ("wal S40 goal", "  wal S40 goal\n"),
    ("law M65 hyp 1 2", "  law M65 hyp 1 2\n"),
    // certificates
    ("lin 1,2:1*1+1*3", "  lin 1, 2 : 1 * 1 + 1 * 3\n"),
    ("lin:2*1", "  lin : 2 * 1\n"),
    (
        "lin 3 : 1 * 1 | 4 / 2 | -3 * 2",
        "  lin 3 : 1 * 1 | 4 / 2 | -3 * 2\n",
    ),
];
