//! The grammar as a text: a line for each row, with a blank between two symbols.

/// The rows of all texts.
pub(crate) fn rows_text() -> &'static [u8] {
    ROWS.as_bytes()
}

/// The rows of what printed formulas have more.
pub(crate) fn additions_text() -> &'static [u8] {
    ADDITIONS.as_bytes()
}

/// A line for each part: what it is.
pub(crate) fn words_text() -> &'static [u8] {
    WORDS.as_bytes()
}

// Each part, and what it is.
const WORDS: &str = "<component> a component
<head> MACHINE, REFINEMENT or IMPLEMENTATION
<lowest-head> IMPLEMENTATION
<clauses> a clause
<clause> a clause
<lowest-clauses> a clause
<lowest-clause> a clause
<common> a clause
<sets> a set, S = {a, b}
<set> a set, S = {a, b}
<names> a name
<assertions> a predicate
<values> a value, c = 1
<value> a value, c = 1
<operations> an operation
<operation> an operation
<header> an operation
<body> a substitution
<substitution> a substitution
<statement> a substitution
<choices> a substitution
<condition> a condition
<guards> a condition
<terms> a term
<term> a term
<operand> a term
<primary> a term
<chain> a term
<constant> a term
<word> a term
<addition> a term
<binder> a name, or names in parentheses
<bounds> $1 and its type
<ranges> $1 and what it ranges over
<type> a type
<operator> an operator
<proof-file> proof
<script> proof
<path> the name of an obligation
<piece> a part of a name
<rules> a rule
<rule> a rule
<place> a place, goal or hyp i
<children> the number of a child
<typed> a name and its type, x : T
<instance> the name of a law
<numbers> the number of a hypothesis
<lines> a line of a certificate
<line> a line of a certificate
<sum> m * k
<multiple> m * k
";

// Each row.
const ROWS: &str = "<component> <head> END
<component> <head> <clauses> END
<component> <lowest-head> END
<component> <lowest-head> <lowest-clauses> END
<head> MACHINE <name>
<head> REFINEMENT <name> REFINES <name>
<lowest-head> IMPLEMENTATION <name> REFINES <name>
<clauses> <clause>
<clauses> <clauses> <clause>
<clause> <common>
<clause> VARIABLES <names>
<clause> ABSTRACT_VARIABLES <names>
<lowest-clauses> <lowest-clause>
<lowest-clauses> <lowest-clauses> <lowest-clause>
<lowest-clause> <common>
<lowest-clause> VALUES <values>
<common> SETS <sets>
<common> CONSTANTS <names>
<common> CONCRETE_CONSTANTS <names>
<common> PROPERTIES <term>
<common> CONCRETE_VARIABLES <names>
<common> INVARIANT <term>
<common> ASSERTIONS <assertions>
<common> INITIALISATION <substitution>
<common> OPERATIONS <operations>
<sets> <set>
<sets> <sets> ; <set>
<set> <name> = { <names> }
<names> <name>
<names> <names> , <name>
<assertions> <term>
<assertions> <assertions> ; <term>
<values> <value>
<values> <values> ; <value>
<value> <name> = <term>
<operations> <operation>
<operations> <operations> ; <operation>
<operation> <header> = <body>
<header> <name>
<header> <name> ( <names> )
<header> <names> <-- <name>
<header> <names> <-- <name> ( <names> )
<body> <statement>
<body> <body> || <statement>
<substitution> <statement>
<substitution> <substitution> ; <statement>
<substitution> <substitution> || <statement>
<statement> skip
<statement> <names> := <terms>
<statement> <name> ( <term> ) := <term>
<statement> <name> :: <term>
<statement> <names> : ( <term> )
<statement> BEGIN <substitution> END
<statement> PRE <term> THEN <substitution> END
<statement> ASSERT <term> THEN <substitution> END
<statement> IF <condition> END
<statement> IF <condition> ELSE <substitution> END
<statement> CHOICE <choices> END
<statement> SELECT <guards> END
<statement> SELECT <guards> ELSE <substitution> END
<statement> ANY <names> WHERE <term> THEN <substitution> END
<statement> LET <names> BE <term> IN <substitution> END
<statement> VAR <names> IN <substitution> END
<statement> WHILE <term> DO <substitution> INVARIANT <term> VARIANT <term> END
<condition> <term> THEN <substitution>
<condition> <condition> ELSIF <term> THEN <substitution>
<choices> <substitution>
<choices> <choices> OR <substitution>
<guards> <term> THEN <substitution>
<guards> <guards> WHEN <term> THEN <substitution>
<terms> <term>
<terms> <terms> , <term>
<term> <operand>
<term> <term> <operator> <operand>
<operand> <primary>
<operand> - <primary>
<primary> <name>
<primary> <old-name>
<primary> <number>
<primary> <constant>
<primary> <addition>
<primary> <word> ( <term> )
<primary> ( <term> )
<primary> ( <term> , <terms> )
<primary> ( <term> ; <chain> )
<primary> <primary> ( <terms> )
<primary> <primary> [ <term> ]
<primary> <primary> ~
<primary> { }
<primary> { <terms> }
<primary> { <names> | <term> }
<primary> % <binder> . ( <term> | <term> )
<primary> ! <binder> . ( <term> )
<primary> # <binder> . ( <term> )
<chain> <term>
<chain> <chain> ; <term>
<binder> <name>
<binder> ( <names> )
<type> INTEGER
<type> BOOL
<type> <name>
<type> POW ( <type> )
<type> ( <type> * <type> )
<constant> BOOL
<constant> TRUE
<constant> FALSE
<constant> INTEGER
<constant> NATURAL
<constant> NATURAL1
<constant> INT
<constant> NAT
<constant> NAT1
<constant> MAXINT
<constant> MININT
<word> not
<word> card
<word> min
<word> max
<word> dom
<word> ran
<word> id
<word> succ
<word> pred
<word> bool
<word> POW
<word> POW1
<word> FIN
<word> FIN1
<operator> <=>
<operator> =>
<operator> &
<operator> or
<operator> =
<operator> /=
<operator> <
<operator> <=
<operator> >
<operator> >=
<operator> :
<operator> /:
<operator> <:
<operator> /<:
<operator> <<:
<operator> <->
<operator> +->
<operator> -->
<operator> >+>
<operator> >->
<operator> +->>
<operator> -->>
<operator> >->>
<operator> \\/
<operator> /\\
<operator> <|
<operator> |>
<operator> <<|
<operator> |>>
<operator> <+
<operator> |->
<operator> ..
<operator> +
<operator> -
<operator> *
<operator> /
<operator> mod
<operator> **
<proof-file>
<proof-file> <script>
<proof-file> <proof-file> <script>
<script> proof <path> end
<script> proof <path> <rules> end
<path> <piece>
<path> <path> . <piece>
<piece> <name>
<piece> <number>
<piece> <reserved>
<rules> <rule>
<rules> <rules> ; <rule>
<rule> hyp <number>
<rule> false <number>
<rule> split <number>
<rule> cases <number>
<rule> apply <number>
<rule> drop <number>
<rule> interval <number>
<rule> absurd <number> <number>
<rule> true
<rule> same
<rule> eval
<rule> and
<rule> iff
<rule> imp
<rule> not
<rule> left
<rule> right
<rule> or
<rule> contra
<rule> induct
<rule> poly
<rule> eval <place>
<rule> fix <typed>
<rule> use <terms>
<rule> inst <number> <terms>
<rule> open <number> <typed>
<rule> cut <term>
<rule> case <term>
<rule> eq <number> <place>
<rule> qe <number> <place>
<rule> law <instance> <place>
<rule> wal <instance> <place>
<rule> type <place>
<rule> neg <place>
<rule> mem <place>
<rule> val <place>
<rule> ext <place>
<rule> sub <place>
<rule> ex <place>
<rule> pair <term>
<rule> elems <term>
<rule> lin <numbers> : <lines>
<rule> lin : <lines>
<place> goal
<place> goal <children>
<place> hyp <number>
<place> hyp <number> <children>
<children> <number>
<children> <children> <number>
<typed> <name> : <type>
<typed> <typed> , <name> : <type>
<instance> <name>
<instance> <name> ( )
<instance> <name> ( <terms> )
<numbers> <number>
<numbers> <numbers> , <number>
<lines> <line>
<lines> <lines> | <line>
<line> <sum>
<line> <number> / <number>
<sum> <multiple>
<sum> <sum> + <multiple>
<multiple> <number> * <number>
<multiple> - <number> * <number>
";

// Each row of what printed formulas have more.
const ADDITIONS: &str = "<addition> <level-name>
<addition> <bound-name>
<addition> btrue
<addition> bfalse
<addition> { : <type> }
<addition> { <ranges> | <term> }
<addition> % ( <ranges> ) . ( <term> | <term> )
<addition> ! ( <bounds> ) . ( <term> )
<addition> # ( <bounds> ) . ( <term> )
<ranges> <bound-name> : <term>
<ranges> <ranges> , <bound-name> : <term>
<bounds> <bound-name> : <type>
<bounds> <bounds> , <bound-name> : <type>
";
