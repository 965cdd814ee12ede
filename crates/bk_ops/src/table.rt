//! The signs and words of the B notation.

ghost use Rattle.std.specs.Prelude.{◌≡◌, map};
ghost use Rattle.std.specs.List.{range_with_len};
ghost use Rattle.bk_ops.specs.Rows.{TextsDiffer, number_of, text_of};
ghost use Rattle.bk_ops.specs.Signs.{sign_texts};
ghost use Rattle.bk_ops.specs.Words.{word_texts};

use crate::row::{NO_OPERATOR, OpRow};
use crate::{sign, word};

// A row: its text, filled up with blanks, the length without them, its number, and its level as an operator.
macro_rules! row {
    ($text:literal, $len:literal, $number:expr) => {
        row!($text, $len, $number, NO_OPERATOR)
    };
    ($text:literal, $len:literal, $number:expr, $level:expr) => {
        OpRow {
            text: *$text,
            len: $len,
            op: $number,
            level: $level,
        }
    };
}

/// The signs.
pub fn signs() -> [OpRow; 57]
    ensures texts { TextsDiffer result }
    ensures signs { map text_of result ≡ sign_texts }
    ensures numbers { map number_of result ≡ range_with_len 0 57 }
{
    [
        row!(b"&                   ", 1, sign::AND, 2),
        row!(b"=>                  ", 2, sign::IMPLIES, 1),
        row!(b"<=>                 ", 3, sign::EQUIVALENT, 0),
        row!(b"!                   ", 1, sign::FOR_ALL),
        row!(b"#                   ", 1, sign::EXISTS),
        row!(b"=                   ", 1, sign::EQUAL, 3),
        row!(b"/=                  ", 2, sign::NOT_EQUAL, 3),
        row!(b"<                   ", 1, sign::LESS, 3),
        row!(b"<=                  ", 2, sign::AT_MOST, 3),
        row!(b">                   ", 1, sign::GREATER, 3),
        row!(b">=                  ", 2, sign::AT_LEAST, 3),
        row!(b":                   ", 1, sign::MEMBER, 3),
        row!(b"/:                  ", 2, sign::NOT_MEMBER, 3),
        row!(b"<:                  ", 2, sign::SUBSET, 3),
        row!(b"/<:                 ", 3, sign::NOT_SUBSET, 3),
        row!(b"<<:                 ", 3, sign::STRICT_SUBSET, 3),
        row!(b"\\/                  ", 2, sign::UNION, 5),
        row!(b"/\\                  ", 2, sign::INTERSECTION, 5),
        row!(b"-                   ", 1, sign::MINUS, 7),
        row!(b"*                   ", 1, sign::TIMES, 8),
        row!(b"|->                 ", 3, sign::MAPLET, 5),
        row!(b"..                  ", 2, sign::INTERVAL, 6),
        row!(b"{                   ", 1, sign::OPEN_BRACE),
        row!(b"}                   ", 1, sign::CLOSE_BRACE),
        row!(b"(                   ", 1, sign::OPEN_PAREN),
        row!(b")                   ", 1, sign::CLOSE_PAREN),
        row!(b"[                   ", 1, sign::OPEN_BRACKET),
        row!(b"]                   ", 1, sign::CLOSE_BRACKET),
        row!(b"<->                 ", 3, sign::RELATIONS, 4),
        row!(b"+->                 ", 3, sign::PARTIAL_FUNCTIONS, 4),
        row!(b"-->                 ", 3, sign::TOTAL_FUNCTIONS, 4),
        row!(b">+>                 ", 3, sign::PARTIAL_INJECTIONS, 4),
        row!(b">->                 ", 3, sign::TOTAL_INJECTIONS, 4),
        row!(b"+->>                ", 4, sign::PARTIAL_SURJECTIONS, 4),
        row!(b"-->>                ", 4, sign::TOTAL_SURJECTIONS, 4),
        row!(b">->>                ", 4, sign::BIJECTIONS, 4),
        row!(b"~                   ", 1, sign::INVERSE),
        row!(b"<|                  ", 2, sign::DOMAIN_RESTRICTION, 5),
        row!(b"|>                  ", 2, sign::RANGE_RESTRICTION, 5),
        row!(b"<<|                 ", 3, sign::DOMAIN_SUBTRACTION, 5),
        row!(b"|>>                 ", 3, sign::RANGE_SUBTRACTION, 5),
        row!(b"<+                  ", 2, sign::OVERRIDE, 5),
        row!(b";                   ", 1, sign::SEMICOLON),
        row!(b",                   ", 1, sign::COMMA),
        row!(b".                   ", 1, sign::DOT),
        row!(b"|                   ", 1, sign::BAR),
        row!(b"||                  ", 2, sign::PARALLEL),
        row!(b"%                   ", 1, sign::LAMBDA),
        row!(b"+                   ", 1, sign::PLUS, 7),
        row!(b"/                   ", 1, sign::DIVIDE, 8),
        row!(b"**                  ", 2, sign::POWER, 9),
        row!(b":=                  ", 2, sign::ASSIGN),
        row!(b"::                  ", 2, sign::BECOMES_MEMBER),
        row!(b"<--                 ", 3, sign::OUTPUTS),
        row!(b"^                   ", 1, sign::CONCATENATION, 5),
        row!(b"->                  ", 2, sign::PREPEND, 5),
        row!(b"<-                  ", 2, sign::APPEND, 5),
    ]
}

/// The words: those of clauses, those of formulas, and further ones, of which most are reserved.
pub fn words() -> [OpRow; 95]
    ensures texts { TextsDiffer result }
    ensures words { map text_of result ≡ word_texts }
    ensures numbers { map number_of result ≡ range_with_len 57 95 }
{
    [
        // Words of clauses.
        row!(b"MACHINE             ", 7, word::MACHINE),
        row!(b"REFINEMENT          ", 10, word::REFINEMENT),
        row!(b"IMPLEMENTATION      ", 14, word::IMPLEMENTATION),
        row!(b"REFINES             ", 7, word::REFINES),
        row!(b"SETS                ", 4, word::SETS),
        row!(b"CONSTANTS           ", 9, word::CONSTANTS),
        row!(b"CONCRETE_CONSTANTS  ", 18, word::CONCRETE_CONSTANTS),
        row!(b"PROPERTIES          ", 10, word::PROPERTIES),
        row!(b"VARIABLES           ", 9, word::VARIABLES),
        row!(b"ABSTRACT_VARIABLES  ", 18, word::ABSTRACT_VARIABLES),
        row!(b"CONCRETE_VARIABLES  ", 18, word::CONCRETE_VARIABLES),
        row!(b"INVARIANT           ", 9, word::INVARIANT),
        row!(b"ASSERTIONS          ", 10, word::ASSERTIONS),
        row!(b"VALUES              ", 6, word::VALUES),
        row!(b"INITIALISATION      ", 14, word::INITIALISATION),
        row!(b"OPERATIONS          ", 10, word::OPERATIONS),
        row!(b"END                 ", 3, word::END),
        row!(b"BEGIN               ", 5, word::BEGIN),
        row!(b"PRE                 ", 3, word::PRE),
        row!(b"THEN                ", 4, word::THEN),
        row!(b"IF                  ", 2, word::IF),
        row!(b"ELSIF               ", 5, word::ELSIF),
        row!(b"ELSE                ", 4, word::ELSE),
        row!(b"SELECT              ", 6, word::SELECT),
        row!(b"WHEN                ", 4, word::WHEN),
        row!(b"CHOICE              ", 6, word::CHOICE),
        row!(b"OR                  ", 2, word::OR_BRANCH),
        row!(b"ANY                 ", 3, word::ANY),
        row!(b"WHERE               ", 5, word::WHERE),
        row!(b"LET                 ", 3, word::LET),
        row!(b"BE                  ", 2, word::BE),
        row!(b"IN                  ", 2, word::IN),
        row!(b"VAR                 ", 3, word::VAR),
        row!(b"WHILE               ", 5, word::WHILE),
        row!(b"DO                  ", 2, word::DO),
        row!(b"VARIANT             ", 7, word::VARIANT),
        row!(b"ASSERT              ", 6, word::ASSERT),
        row!(b"skip                ", 4, word::SKIP),
        // Words of formulas.
        row!(b"or                  ", 2, word::OR, 2),
        row!(b"not                 ", 3, word::NOT),
        row!(b"mod                 ", 3, word::MOD, 8),
        row!(b"card                ", 4, word::CARD),
        row!(b"min                 ", 3, word::MIN),
        row!(b"max                 ", 3, word::MAX),
        row!(b"dom                 ", 3, word::DOM),
        row!(b"ran                 ", 3, word::RAN),
        row!(b"id                  ", 2, word::ID),
        row!(b"succ                ", 4, word::SUCC),
        row!(b"pred                ", 4, word::PRED),
        row!(b"bool                ", 4, word::BOOL_OF),
        row!(b"BOOL                ", 4, word::BOOL),
        row!(b"TRUE                ", 4, word::TRUE),
        row!(b"FALSE               ", 5, word::FALSE),
        row!(b"INTEGER             ", 7, word::INTEGER),
        row!(b"NATURAL             ", 7, word::NATURAL),
        row!(b"NATURAL1            ", 8, word::NATURAL1),
        row!(b"INT                 ", 3, word::INT),
        row!(b"NAT                 ", 3, word::NAT),
        row!(b"NAT1                ", 4, word::NAT1),
        row!(b"MAXINT              ", 6, word::MAXINT),
        row!(b"MININT              ", 6, word::MININT),
        row!(b"POW                 ", 3, word::POW),
        row!(b"POW1                ", 4, word::POW1),
        row!(b"FIN                 ", 3, word::FIN),
        row!(b"FIN1                ", 4, word::FIN1),
        row!(b"btrue               ", 5, word::BTRUE),
        row!(b"bfalse              ", 6, word::BFALSE),
        // Further words. Those with a bare number are reserved: no rule of the notation asks for them yet.
        row!(b"ABSTRACT_CONSTANTS  ", 18, 124),
        row!(b"SEES                ", 4, 125),
        row!(b"USES                ", 4, 126),
        row!(b"INCLUDES            ", 8, 127),
        row!(b"EXTENDS             ", 7, 128),
        row!(b"PROMOTES            ", 8, 129),
        row!(b"IMPORTS             ", 7, word::IMPORTS),
        row!(b"DEFINITIONS         ", 11, 131),
        row!(b"LOCAL_OPERATIONS    ", 16, 132),
        row!(b"CONSTRAINTS         ", 11, 133),
        row!(b"CASE                ", 4, 134),
        row!(b"OF                  ", 2, 135),
        row!(b"EITHER              ", 6, 136),
        row!(b"seq                 ", 3, word::SEQ),
        row!(b"size                ", 4, word::SIZE),
        row!(b"first               ", 5, word::FIRST),
        row!(b"last                ", 4, word::LAST),
        row!(b"front               ", 5, word::FRONT),
        row!(b"tail                ", 4, word::TAIL),
        row!(b"rev                 ", 3, word::REV),
        row!(b"UNION               ", 5, 144),
        row!(b"INTER               ", 5, 145),
        row!(b"SIGMA               ", 5, 146),
        row!(b"PI                  ", 2, 147),
        row!(b"union               ", 5, 148),
        row!(b"inter               ", 5, 149),
        row!(b"iterate             ", 7, 150),
        row!(b"closure             ", 7, 151),
    ]
}
