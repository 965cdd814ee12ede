// Formulas of the laws as texts, in which a letter stands for each variable.

use bk_form::{BinOp, Domain, Form, Ty, UnOp, View};
use bk_io::Memory;
use std::alloc::Global;

// The text of an operator between two formulas.
fn sign(op: BinOp) -> &'static str {
    match op {
        BinOp::And => " & ",
        BinOp::Or => " or ",
        BinOp::Imp => " => ",
        BinOp::Iff => " <=> ",
        BinOp::Eq => " = ",
        BinOp::Lt => " < ",
        BinOp::Le => " <= ",
        BinOp::In => " : ",
        BinOp::Relations => " <-> ",
        BinOp::PartialFunctions => " +-> ",
        BinOp::TotalFunctions => " --> ",
        BinOp::PartialInjections => " >+> ",
        BinOp::TotalInjections => " >-> ",
        BinOp::PartialSurjections => " +->> ",
        BinOp::TotalSurjections => " -->> ",
        BinOp::Bijections => " >->> ",
        BinOp::Union => " \\/ ",
        BinOp::Inter => " /\\ ",
        BinOp::Minus | BinOp::Sub => " - ",
        BinOp::Times | BinOp::Mul => " * ",
        BinOp::DomRes => " <| ",
        BinOp::RanRes => " |> ",
        BinOp::DomSub => " <<| ",
        BinOp::RanSub => " |>> ",
        BinOp::Over => " <+ ",
        BinOp::Maps => " |-> ",
        BinOp::Range => " .. ",
        BinOp::Add => " + ",
        BinOp::Div => " / ",
        BinOp::Mod => " mod ",
        BinOp::Power => " ** ",
        BinOp::Comp => " ; ",
        BinOp::Image | BinOp::Apply => " ? ",
    }
}

// What stands before, between and after the operands of an operator.
fn marks(op: BinOp, is_part: bool) -> (&'static str, &'static str, &'static str) {
    match op {
        BinOp::Image => ("", "[", "]"),
        BinOp::Apply => ("", "(", ")"),
        BinOp::Comp => ("(", sign(op), ")"),
        _ if is_part => ("(", sign(op), ")"),
        _ => ("", sign(op), ""),
    }
}

// What stands in front of an operator's one operand, and what after it.
fn brackets(op: UnOp) -> (&'static str, &'static str) {
    match op {
        UnOp::Not => ("not(", ")"),
        UnOp::BoolOf => ("bool(", ")"),
        UnOp::Card => ("card(", ")"),
        UnOp::Min => ("min(", ")"),
        UnOp::Max => ("max(", ")"),
        UnOp::Dom => ("dom(", ")"),
        UnOp::Ran => ("ran(", ")"),
        UnOp::Id => ("id(", ")"),
        UnOp::Inverse => ("", "~"),
        UnOp::Single => ("{", "}"),
        UnOp::Pow => ("POW(", ")"),
        UnOp::Pow1 => ("POW1(", ")"),
        UnOp::Neg => ("-(", ")"),
    }
}

// The text of a formula without operators; that of variable n is letter n.
fn simple<'a>(form: &Form, letters: &'a str) -> &'a str {
    match form.view() {
        View::Var(n) => letter(letters, n),
        View::Int(0) => "0",
        View::Int(1) => "1",
        View::Int(3) => "3",
        View::Int(7) => "7",
        View::Bool(true) => "TRUE",
        View::Bool(false) => "FALSE",
        View::Empty(ty) => empty(ty),
        View::Name(Domain::Natural) => "NATURAL",
        View::Name(Domain::Natural1) => "NATURAL1",
        View::True => "btrue",
        View::False => "bfalse",
        _ => "?",
    }
}

// The letter of the empty set of this type.
fn empty(ty: &Ty) -> &'static str {
    if ty.equal(&Ty::boolean()) { "p" } else { "o" }
}

fn letter(letters: &str, number: u32) -> &str {
    let from = number as usize;
    letters.get(from..from.saturating_add(1)).unwrap_or("?")
}

// Appends the text of a formula. An operand whose operator stands between two formulas is in parentheses.
fn put(out: &mut Vec<u8>, form: &Form, letters: &str, is_part: bool) -> Result<(), Memory> {
    match form.view() {
        View::Un(op, operand) => {
            let (before, behind) = brackets(op);
            out.extend_from_slice(before.as_bytes())?;
            put(out, operand, letters, matches!(op, UnOp::Inverse))?;
            out.extend_from_slice(behind.as_bytes())?;
        }
        View::Bin(op, left, right) => {
            let (before, between, behind) = marks(op, is_part);
            let is_enclosed = matches!(op, BinOp::Image | BinOp::Apply);
            out.extend_from_slice(before.as_bytes())?;
            put(out, left, letters, true)?;
            out.extend_from_slice(between.as_bytes())?;
            put(out, right, letters, !is_enclosed)?;
            out.extend_from_slice(behind.as_bytes())?;
        }
        _ => out.extend_from_slice(simple(form, letters).as_bytes())?,
    }
    Ok(())
}

// The text of a formula.
pub(crate) fn text(alloc: Global, form: &Form, letters: &str) -> Result<Vec<u8>, Memory> {
    let mut out = Vec::new(alloc);
    put(&mut out, form, letters, false)?;
    Ok(out)
}

// The texts of some formulas, divided by commas.
pub(crate) fn listed(alloc: Global, forms: &[Form], letters: &str) -> Result<Vec<u8>, Memory> {
    let mut out = Vec::new(alloc);
    for form in forms {
        if !out.is_empty() {
            out.extend_from_slice(b", ")?;
        }
        put(&mut out, form, letters, false)?;
    }
    Ok(out)
}
