//! Terms as linear forms over atoms. Each is given as the fact that it is at least 0.

ghost use Rattle.std.specs.Prelude.{◌≡◌, MatchResult, IfOk, Some, length, map};
ghost use Rattle.bk_lin.specs.Certificate.{inequality_of};
ghost use Rattle.bk_arith.specs.Reading.{number_over, atom_over, if_narrow, reading};
ghost use Rattle.bk_arith.specs.Layout.{less, term_of, IsReadFault};

use crate::comparison::Term;
use crate::error::ArithFault;
use crate::joining::{Join, combine, scale};
use crate::occurrence::same;
use crate::sum::closed;
use bk_form::{BinOp, Form, UnOp, View};
use bk_lin::Fact;
use std::alloc::Global;

/// The fact that the term is at least 0, over these atoms.
pub fn read_term(alloc: Global, term: Term<'_>, atoms: &[Form]) -> Result<Fact, ArithFault>
    ensures value { MatchResult result (λ f. reading atoms.now (term_of term.entry) ≡ Some (inequality_of f))
        (λ e. IsReadFault (reading atoms.now (term_of term.entry)) e) }
    ensures width { IfOk result (λ f. length f.coefs.items ≡ length atoms.now) }
{
    let difference = read_difference(alloc, term.upper, term.lower, atoms)?;
    if !term.strict {
        return Ok(difference);
    }
    let one = number(alloc, 1, atoms)?;
    combine(Join::Difference, difference, &one).ok_or(ArithFault::TooWide)
}

fn read_difference(
    alloc: Global,
    upper: &Form,
    lower: Option<&Form>,
    atoms: &[Form],
) -> Result<Fact, ArithFault>
    ensures value { MatchResult result (λ f. reading atoms.now (less upper.now lower.entry) ≡ Some (inequality_of f))
        (λ e. IsReadFault (reading atoms.now (less upper.now lower.entry)) e) }
    ensures width { IfOk result (λ f. length f.coefs.items ≡ length atoms.now) }
{
    let upper = read(alloc, upper, atoms)?;
    match lower {
        Some(lower) => {
            let lower = read(alloc, lower, atoms)?;
            combine(Join::Difference, upper, &lower).ok_or(ArithFault::TooWide)
        }
        None => Ok(upper),
    }
}

fn read(alloc: Global, form: &Form, atoms: &[Form]) -> Result<Fact, ArithFault>
    ensures value { MatchResult result (λ f. reading atoms.now form.now ≡ Some (inequality_of f))
        (λ e. IsReadFault (reading atoms.now form.now) e) }
    ensures width { IfOk result (λ f. length f.coefs.items ≡ length atoms.now) }
{
    match form.view() {
        View::Int(value) => number(alloc, value, atoms),
        View::Un(UnOp::Neg, operand) => {
            let operand = read(alloc, operand, atoms)?;
            scale(-1, operand).ok_or(ArithFault::TooWide)
        }
        View::Bin(BinOp::Add, left, right) => {
            let left = read(alloc, left, atoms)?;
            let right = read(alloc, right, atoms)?;
            combine(Join::Sum, left, &right).ok_or(ArithFault::TooWide)
        }
        View::Bin(BinOp::Sub, left, right) => {
            let left = read(alloc, left, atoms)?;
            let right = read(alloc, right, atoms)?;
            combine(Join::Difference, left, &right).ok_or(ArithFault::TooWide)
        }
        View::Bin(BinOp::Mul, left, right) => match (closed(left), closed(right)) {
            (Some(by), _) => {
                let right = read(alloc, right, atoms)?;
                scale(by, right).ok_or(ArithFault::TooWide)
            }
            (None, Some(by)) => {
                let left = read(alloc, left, atoms)?;
                scale(by, left).ok_or(ArithFault::TooWide)
            }
            (None, None) => atom(alloc, form, atoms),
        },
        _ => atom(alloc, form, atoms),
    }
}

fn number(alloc: Global, value: i128, atoms: &[Form]) -> Result<Fact, ArithFault>
    ensures value { MatchResult result (λ f. if_narrow (number_over atoms.now value) ≡ Some (inequality_of f))
        (λ e. e ≡ ArithFault.Memory) }
    ensures width { IfOk result (λ f. length f.coefs.items ≡ length atoms.now) }
{
    Ok(Fact {
        coefs: vec![in alloc; 0i128; atoms.len()]?,
        constant: value,
    })
}

// One times the atom.
fn atom(alloc: Global, form: &Form, atoms: &[Form]) -> Result<Fact, ArithFault>
    ensures value { MatchResult result (λ f. inequality_of f ≡ atom_over atoms.now form.now)
        (λ e. e ≡ ArithFault.Memory) }
    ensures width { IfOk result (λ f. length f.coefs.items ≡ length atoms.now) }
{
    let mut coefs = Vec::new(alloc);
    for other in atoms {
        coefs.push(i128::from(same(form, other)))?;
    }
    Ok(Fact { coefs, constant: 0 })
}
