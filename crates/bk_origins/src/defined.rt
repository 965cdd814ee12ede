//! What is asked where something has to be defined, or to fit the machine, by the form of the goal.

use bk_form::{BinOp, Form, UnOp, View};

/// What a goal asks that something is defined, in words.
pub(crate) fn defined_words(goal: &Form) -> &'static [u8] {
    match goal.view() {
        View::Un(UnOp::Not, operand) => denied_words(operand),
        View::Bin(BinOp::Le, left, _) if is_number(left) => {
            b"the dividend of mod, or the exponent, is not negative"
        }
        View::Bin(BinOp::Lt, left, _) if is_number(left) => b"the divisor of mod is positive",
        View::Bin(BinOp::In, _, set) => member_words(set),
        View::Bin(BinOp::Imp, _, asked) => defined_words(asked),
        View::All(_, body) => defined_words(body),
        _ => b"each term is defined",
    }
}

/// What a goal asks of what is executed, where the machine's numbers go up to this one, in words.
pub(crate) fn fitting_words(goal: &Form, greatest: i64) -> &'static [u8] {
    match goal.view() {
        View::Un(UnOp::Not, operand) => denied_words(operand),
        View::Bin(BinOp::Le, left, right) => bounded_words(left, right, i128::from(greatest)),
        View::Bin(BinOp::Lt, left, _) if is_number(left) => b"the divisor of mod is positive",
        View::Bin(BinOp::Imp, _, asked) => fitting_words(asked, greatest),
        View::All(_, body) => fitting_words(body, greatest),
        _ => b"what is executed is defined, and within MININT..MAXINT",
    }
}

// Of `not(P)`.
fn denied_words(operand: &Form) -> &'static [u8] {
    match operand.view() {
        View::Bin(BinOp::Eq, _, right) => match right.view() {
            View::Int(0) => b"the divisor is not 0",
            View::Empty(_) => b"the set of min or max is not empty",
            _ => b"each term is defined",
        },
        _ => b"each term is defined",
    }
}

// Of `a <= b` where something is executed.
fn bounded_words(left: &Form, right: &Form, greatest: i128) -> &'static [u8] {
    if is_sum(right) && is_opposite(left, greatest) {
        return b"the result is at least MININT";
    }
    if is_sum(left) && is_this(right, greatest) {
        return b"the result is at most MAXINT";
    }
    if is_this(left, 0) {
        return b"array index is in bounds, or the dividend of mod is not negative";
    }
    b"array index is in bounds"
}

fn is_number(form: &Form) -> bool {
    matches!(form.view(), View::Int(_))
}

fn is_this(form: &Form, number: i128) -> bool {
    match form.view() {
        View::Int(value) => value == number,
        _ => false,
    }
}

// Whether it is the number with the other sign.
fn is_opposite(form: &Form, number: i128) -> bool {
    match form.view() {
        View::Int(value) => value.checked_neg() == Some(number),
        _ => false,
    }
}

fn is_sum(form: &Form) -> bool {
    matches!(
        form.view(),
        View::Bin(BinOp::Add | BinOp::Sub | BinOp::Mul, _, _)
    )
}

// Of `E : S`.
fn member_words(set: &Form) -> &'static [u8] {
    match set.view() {
        View::Bin(BinOp::PartialFunctions, _, _) => b"what is applied is a function",
        View::Un(UnOp::Dom, _) => b"the argument is in the function's domain",
        _ => b"each term is defined",
    }
}
