//! How operators are written.

ghost use Rattle.std.specs.Prelude.{◌≡◌};
ghost use Rattle.bk_raw.specs.Trees.Operators.{infix_kind, word_kind};
ghost use Rattle.bk_show.specs.Items.{kind_text};
ghost use Rattle.bk_show.specs.Shown.{unary_form, binary_form};

use bk_form::{BinOp, UnOp};
use bk_raw::{InfixOp, WordOp};

/// How an operator stands with its one operand.
#[derive(Clone, Copy)]
pub enum UnaryForm {
    /// The word, and the operand in parentheses: `dom(r)`.
    Word(WordOp),
    /// `-(E)`.
    Negative,
    /// `r~`.
    Inverse,
    /// `{E}`.
    Single,
}

/// How an operator stands with its two operands.
#[derive(Clone, Copy)]
pub enum BinaryForm {
    /// The operator between them: `E + F`.
    Infix(InfixOp),
    /// `r[S]`.
    Image,
    /// `f(E)`.
    Application,
    /// `(r ; s)`.
    Composition,
}

impl UnaryForm {
    /// How the operator stands with its operand.
    pub fn of(op: UnOp) -> UnaryForm
        ensures { result ≡ unary_form op }
    {
        match op {
            UnOp::Not => UnaryForm::Word(WordOp::Not),
            UnOp::BoolOf => UnaryForm::Word(WordOp::BoolOf),
            UnOp::Neg => UnaryForm::Negative,
            UnOp::Card => UnaryForm::Word(WordOp::Card),
            UnOp::Min => UnaryForm::Word(WordOp::Min),
            UnOp::Max => UnaryForm::Word(WordOp::Max),
            UnOp::Dom => UnaryForm::Word(WordOp::Dom),
            UnOp::Ran => UnaryForm::Word(WordOp::Ran),
            UnOp::Id => UnaryForm::Word(WordOp::Id),
            UnOp::Inverse => UnaryForm::Inverse,
            UnOp::Single => UnaryForm::Single,
            UnOp::Pow => UnaryForm::Word(WordOp::Pow),
            UnOp::Pow1 => UnaryForm::Word(WordOp::Pow1),
        }
    }
}

impl BinaryForm {
    /// How the operator stands with its operands.
    pub fn of(op: BinOp) -> BinaryForm
        ensures { result ≡ binary_form op }
    {
        match op {
            BinOp::And => BinaryForm::Infix(InfixOp::And),
            BinOp::Or => BinaryForm::Infix(InfixOp::Or),
            BinOp::Imp => BinaryForm::Infix(InfixOp::Implies),
            BinOp::Iff => BinaryForm::Infix(InfixOp::Equivalent),
            BinOp::Eq => BinaryForm::Infix(InfixOp::Equal),
            BinOp::Lt => BinaryForm::Infix(InfixOp::Less),
            BinOp::Le => BinaryForm::Infix(InfixOp::AtMost),
            BinOp::In => BinaryForm::Infix(InfixOp::Member),
            BinOp::Relations => BinaryForm::Infix(InfixOp::Relations),
            BinOp::PartialFunctions => BinaryForm::Infix(InfixOp::PartialFunctions),
            BinOp::TotalFunctions => BinaryForm::Infix(InfixOp::TotalFunctions),
            BinOp::PartialInjections => BinaryForm::Infix(InfixOp::PartialInjections),
            BinOp::TotalInjections => BinaryForm::Infix(InfixOp::TotalInjections),
            BinOp::PartialSurjections => BinaryForm::Infix(InfixOp::PartialSurjections),
            BinOp::TotalSurjections => BinaryForm::Infix(InfixOp::TotalSurjections),
            BinOp::Bijections => BinaryForm::Infix(InfixOp::Bijections),
            BinOp::Union => BinaryForm::Infix(InfixOp::Union),
            BinOp::Inter => BinaryForm::Infix(InfixOp::Intersection),
            BinOp::Minus => BinaryForm::Infix(InfixOp::Minus),
            BinOp::Times => BinaryForm::Infix(InfixOp::Times),
            BinOp::DomRes => BinaryForm::Infix(InfixOp::DomainRestriction),
            BinOp::RanRes => BinaryForm::Infix(InfixOp::RangeRestriction),
            BinOp::DomSub => BinaryForm::Infix(InfixOp::DomainSubtraction),
            BinOp::RanSub => BinaryForm::Infix(InfixOp::RangeSubtraction),
            BinOp::Over => BinaryForm::Infix(InfixOp::Override),
            BinOp::Maps => BinaryForm::Infix(InfixOp::Maplet),
            BinOp::Range => BinaryForm::Infix(InfixOp::Interval),
            BinOp::Add => BinaryForm::Infix(InfixOp::Plus),
            BinOp::Sub => BinaryForm::Infix(InfixOp::Minus),
            BinOp::Mul => BinaryForm::Infix(InfixOp::Times),
            BinOp::Div => BinaryForm::Infix(InfixOp::Divide),
            BinOp::Mod => BinaryForm::Infix(InfixOp::Mod),
            BinOp::Power => BinaryForm::Infix(InfixOp::Power),
            BinOp::Image => BinaryForm::Image,
            BinOp::Apply => BinaryForm::Application,
            BinOp::Comp => BinaryForm::Composition,
        }
    }
}

// The word that stands before an operand.
pub(crate) fn word(op: WordOp) -> &'static [u8]
    ensures { result.now ≡ kind_text (word_kind op) }
{
    match op {
        WordOp::Not => b"not",
        WordOp::BoolOf => b"bool",
        WordOp::Card => b"card",
        WordOp::Min => b"min",
        WordOp::Max => b"max",
        WordOp::Dom => b"dom",
        WordOp::Ran => b"ran",
        WordOp::Id => b"id",
        WordOp::Succ => b"succ",
        WordOp::Pred => b"pred",
        WordOp::Pow => b"POW",
        WordOp::Pow1 => b"POW1",
        WordOp::Fin => b"FIN",
        WordOp::Fin1 => b"FIN1",
        WordOp::Seq => b"seq",
        WordOp::Size => b"size",
        WordOp::First => b"first",
        WordOp::Last => b"last",
        WordOp::Front => b"front",
        WordOp::Tail => b"tail",
        WordOp::Rev => b"rev",
    }
}

// The sign or word that stands between two operands.
pub(crate) fn sign(op: InfixOp) -> &'static [u8]
    ensures { result.now ≡ kind_text (infix_kind op) }
{
    match op {
        InfixOp::Equivalent => b"<=>",
        InfixOp::Implies => b"=>",
        InfixOp::And => b"&",
        InfixOp::Or => b"or",
        InfixOp::Equal => b"=",
        InfixOp::NotEqual => b"/=",
        InfixOp::Less => b"<",
        InfixOp::AtMost => b"<=",
        InfixOp::Greater => b">",
        InfixOp::AtLeast => b">=",
        InfixOp::Member => b":",
        InfixOp::NotMember => b"/:",
        InfixOp::Subset => b"<:",
        InfixOp::NotSubset => b"/<:",
        InfixOp::StrictSubset => b"<<:",
        InfixOp::Relations => b"<->",
        InfixOp::PartialFunctions => b"+->",
        InfixOp::TotalFunctions => b"-->",
        InfixOp::PartialInjections => b">+>",
        InfixOp::TotalInjections => b">->",
        InfixOp::PartialSurjections => b"+->>",
        InfixOp::TotalSurjections => b"-->>",
        InfixOp::Bijections => b">->>",
        InfixOp::Union => b"\\/",
        InfixOp::Intersection => b"/\\",
        InfixOp::DomainRestriction => b"<|",
        InfixOp::RangeRestriction => b"|>",
        InfixOp::DomainSubtraction => b"<<|",
        InfixOp::RangeSubtraction => b"|>>",
        InfixOp::Override => b"<+",
        InfixOp::Maplet => b"|->",
        InfixOp::Interval => b"..",
        InfixOp::Plus => b"+",
        InfixOp::Minus => b"-",
        InfixOp::Times => b"*",
        InfixOp::Divide => b"/",
        InfixOp::Mod => b"mod",
        InfixOp::Power => b"**",
        InfixOp::Concatenation => b"^",
        InfixOp::Prepend => b"->",
        InfixOp::Append => b"<-",
    }
}
