//! Terms multiplied out, as polynomials over atoms: sums of monomials in order of first occurrence.

ghost use Rattle.std.specs.Prelude.{◌≡◌, ◌⊎◌, ◌++◌, ◌+ℤ◌, ◌-ℤ◌, ◌*ℤ◌, ◌∷◌, [], pos, Some, IfOk, IfErr, MatchResult};
ghost use Rattle.std.specs.List.{list_all, position_from};
ghost use Rattle.bk_arith.specs.ClosedSum.{if_fits};
ghost use Rattle.bk_arith.specs.Polynomials.{added, negated_behind, subtracted, all_subtracted, times_each, product, multiple, polynomial};
ghost use Rattle.bk_arith.specs.Polynomials.{removed, same_atoms, taken, is_zero, same_polynomials, equal_polynomials, IsTooWide};
ghost use Rattle.bk_arith.specs.Layout.{monomial_of, polynomial_of, polynomial_in, formulas_in, IsPolynomialFault};

use crate::error::ArithFault;
use crate::occurrence::same;
use bk_form::{BinOp, Form, UnOp, View};
use bk_io::Memory;
use std::alloc::Global;

/// A coefficient, and the atoms that it is multiplied with.
#[derive(Drop)]
pub struct Monomial {
    pub coefficient: i128,
    pub atoms: Vec<Form>,
}

/// Whether two terms are equal as polynomials. Sums, differences, products and unary minus are multiplied out; every other term
/// is an atom, and equal ones are one atom. `TooWide` comes exactly where a coefficient leaves 128 bits on the way.
pub fn polynomial(alloc: Global, left: &Form, right: &Form) -> Result<bool, ArithFault>
    ensures value { IfOk result (λ equal. equal ≡ equal_polynomials left.now right.now) }
    ensures narrow { IfOk result (λ equal. IsTooWide left.now right.now → ⊥) }
    ensures fault { IfErr result (λ e. (e ≡ ArithFault.Memory) ⊎
        ((e ≡ ArithFault.TooWide) × IsTooWide left.now right.now)) }
{
    let first = read(alloc, left)?;
    let second = read(alloc, right)?;
    Ok(same_polynomials(alloc, &first, second)?)
}

// ---- reading
// The polynomial of a term, from the leaves up.
fn read(alloc: Global, form: &Form) -> Result<Vec<Monomial>, ArithFault>
    ensures { MatchResult result (λ p. polynomial form.now ≡ Some (polynomial_of p.items))
        (λ e. IsPolynomialFault (polynomial form.now) e) }
{
    match form.view() {
        View::Int(value) => Ok(number(alloc, value)?),
        View::Un(UnOp::Neg, operand) => {
            let operand = read(alloc, operand)?;
            multiple(alloc, -1, &operand, Vec::new(alloc))
        }
        View::Bin(BinOp::Add, left, right) => {
            let left = read(alloc, left)?;
            let right = read(alloc, right)?;
            multiple(alloc, 1, &right, left)
        }
        View::Bin(BinOp::Sub, left, right) => {
            let left = read(alloc, left)?;
            let right = read(alloc, right)?;
            all_subtracted(alloc, &right, left)
        }
        View::Bin(BinOp::Mul, left, right) => {
            let left = read(alloc, left)?;
            let right = read(alloc, right)?;
            product(alloc, &left, &right, Vec::new(alloc))
        }
        _ => Ok(atom(alloc, form)?),
    }
}

fn number(alloc: Global, value: i128) -> Result<Vec<Monomial>, Memory>
    ensures { IfOk result (λ p. polynomial_of p.items ≡ (value, []) ∷ []) }
{
    let only = Monomial {
        coefficient: value,
        atoms: Vec::new(alloc),
    };
    Ok(Vec::from_array(alloc, [only])?)
}

fn atom(alloc: Global, form: &Form) -> Result<Vec<Monomial>, Memory>
    ensures { IfOk result (λ p. polynomial_of p.items ≡ (pos 1, form.now ∷ []) ∷ []) }
{
    let only = Monomial {
        coefficient: 1,
        atoms: Vec::from_array(alloc, [form.copy(alloc)?])?,
    };
    Ok(Vec::from_array(alloc, [only])?)
}

// ---- multiplying out
// A polynomial times a number, added to another.
fn multiple(
    alloc: Global,
    by: i128,
    polynomial: &[Monomial],
    onto: Vec<Monomial>,
) -> Result<Vec<Monomial>, ArithFault>
    ensures { MatchResult result
        (λ p. multiple by (polynomial_of polynomial.now) (polynomial_of onto.items) ≡ Some (polynomial_of p.items))
        (λ e. IsPolynomialFault (multiple by (polynomial_of polynomial.now) (polynomial_of onto.items)) e) }
{
    let factor = number(alloc, by)?;
    product(alloc, &factor, polynomial, onto)
}

// A product, added to a polynomial: the left monomials in order, each with the right ones in order.
fn product(
    alloc: Global,
    left: &[Monomial],
    right: &[Monomial],
    onto: Vec<Monomial>,
) -> Result<Vec<Monomial>, ArithFault>
    ensures { MatchResult result
        (λ p. product (polynomial_of left.now) (polynomial_of right.now) (polynomial_of onto.items) ≡ Some (polynomial_of p.items))
        (λ e. IsPolynomialFault (product (polynomial_of left.now) (polynomial_of right.now) (polynomial_of onto.items)) e) }
{
    let [first, others @ ..] = left else {
        return Ok(onto);
    };
    let more = times_each(alloc, first, right, onto)?;
    product(alloc, others, right, more)
}

// A monomial times each of some, added to a polynomial.
fn times_each(
    alloc: Global,
    factor: &Monomial,
    list: &[Monomial],
    onto: Vec<Monomial>,
) -> Result<Vec<Monomial>, ArithFault>
    ensures { MatchResult result
        (λ p. times_each (monomial_of factor.now) (polynomial_of list.now) (polynomial_of onto.items) ≡ Some (polynomial_of p.items))
        (λ e. IsPolynomialFault (times_each (monomial_of factor.now) (polynomial_of list.now) (polynomial_of onto.items)) e) }
{
    let [first, others @ ..] = list else {
        return Ok(onto);
    };
    let coefficient = product_of(factor.coefficient, first.coefficient).ok_or(ArithFault::TooWide)?;
    let atoms = joined(alloc, &factor.atoms, &first.atoms)?;
    let more = added(alloc, Monomial { coefficient, atoms }, onto)?;
    times_each(alloc, factor, others, more)
}

fn product_of(left: i128, right: i128) -> Option<i128>
    ensures { result ≡ if_fits (left *ℤ right) }
{
    left.checked_mul(right)
}

fn sum_of(left: i128, right: i128) -> Option<i128>
    ensures { result ≡ if_fits (left +ℤ right) }
{
    left.checked_add(right)
}

fn joined(alloc: Global, left: &[Form], right: &[Form]) -> Result<Vec<Form>, Memory>
    ensures { IfOk result (λ fs. fs.items ≡ left.now ++ right.now) }
{
    let mut list = Form::copy_all(left, alloc)?;
    for form in right {
        list.push(form.copy(alloc)?)?;
    }
    Ok(list)
}

// One more monomial: to the one of the same atoms, or after all.
fn added(
    alloc: Global,
    monomial: Monomial,
    mut onto: Vec<Monomial>,
) -> Result<Vec<Monomial>, ArithFault>
    ensures { MatchResult result
        (λ p. added (monomial_of monomial) (polynomial_of onto.items) ≡ Some (polynomial_of p.items))
        (λ e. IsPolynomialFault (added (monomial_of monomial) (polynomial_of onto.items)) e) }
{
    let Some(index) = place_of(alloc, &monomial.atoms, &onto)? else {
        onto.push(monomial)?;
        return Ok(onto);
    };
    let sum = sum_of(monomial.coefficient, onto[index].coefficient).ok_or(ArithFault::TooWide)?;
    onto[index].coefficient = sum;
    Ok(onto)
}

// A polynomial, subtracted from another coefficient by coefficient.
fn all_subtracted(
    alloc: Global,
    list: &[Monomial],
    from: Vec<Monomial>,
) -> Result<Vec<Monomial>, ArithFault>
    ensures { MatchResult result
        (λ p. all_subtracted (polynomial_of list.now) (polynomial_of from.items) ≡ Some (polynomial_of p.items))
        (λ e. IsPolynomialFault (all_subtracted (polynomial_of list.now) (polynomial_of from.items)) e) }
{
    let [first, others @ ..] = list else {
        return Ok(from);
    };
    let rest = subtracted(alloc, first, from)?;
    all_subtracted(alloc, others, rest)
}

// One monomial subtracted: from the one of the same atoms, or from 0 after all.
fn subtracted(
    alloc: Global,
    monomial: &Monomial,
    mut from: Vec<Monomial>,
) -> Result<Vec<Monomial>, ArithFault>
    ensures { MatchResult result
        (λ p. subtracted (monomial_of monomial.now) (polynomial_of from.items) ≡ Some (polynomial_of p.items))
        (λ e. IsPolynomialFault (subtracted (monomial_of monomial.now) (polynomial_of from.items)) e) }
{
    let Some(index) = place_of(alloc, &monomial.atoms, &from)? else {
        return negated_behind(alloc, monomial, from);
    };
    let difference = difference_of(from[index].coefficient, monomial.coefficient).ok_or(
        ArithFault::TooWide,
    )?;
    from[index].coefficient = difference;
    Ok(from)
}

// The monomial with the other sign, after all.
fn negated_behind(
    alloc: Global,
    monomial: &Monomial,
    mut list: Vec<Monomial>,
) -> Result<Vec<Monomial>, ArithFault>
    ensures { MatchResult result
        (λ p. negated_behind (monomial_of monomial.now) (polynomial_of list.items) ≡ Some (polynomial_of p.items))
        (λ e. IsPolynomialFault (negated_behind (monomial_of monomial.now) (polynomial_of list.items)) e) }
{
    let coefficient = difference_of(0, monomial.coefficient).ok_or(ArithFault::TooWide)?;
    let atoms = Form::copy_all(&monomial.atoms, alloc)?;
    list.push(Monomial { coefficient, atoms })?;
    Ok(list)
}

fn difference_of(left: i128, right: i128) -> Option<i128>
    ensures { result ≡ if_fits (left -ℤ right) }
{
    left.checked_sub(right)
}

// The first monomial of these atoms.
fn place_of(alloc: Global, atoms: &[Form], list: &[Monomial]) -> Result<Option<usize>, Memory>
    ensures { IfOk result (λ o. o ≡ position_from (λ m. same_atoms atoms.now m.1) 0 (polynomial_of list.now)) }
{
    for (index, monomial) in list.iter().enumerate() {
        if same_atoms(alloc, atoms, &monomial.atoms)? {
            return Ok(Some(index));
        }
    }
    Ok(None)
}

// ---- comparing
// Whether two lists have the same formulas, each as often.
fn same_atoms(alloc: Global, left: &[Form], right: &[Form]) -> Result<bool, Memory>
    ensures { IfOk result (λ b. b ≡ same_atoms left.now right.now) }
{
    let [first, others @ ..] = left else {
        return Ok(right.is_empty());
    };
    let Some(rest) = removed(alloc, first, right)? else {
        return Ok(false);
    };
    same_atoms(alloc, others, &rest)
}

// The list without the first such formula; None where it is not there.
fn removed(alloc: Global, form: &Form, list: &[Form]) -> Result<Option<Vec<Form>>, Memory>
    ensures { IfOk result (λ o. formulas_in o ≡ removed form.now list.now) }
{
    let Some(index) = list.iter().position(|other| same(form, other)) else {
        return Ok(None);
    };
    Ok(Some(joined(alloc, &list[..index], &list[index + 1..])?))
}

// Whether two polynomials have the same coefficients.
fn same_polynomials(alloc: Global, left: &[Monomial], right: Vec<Monomial>) -> Result<bool, Memory>
    ensures { IfOk result (λ b. b ≡ same_polynomials (polynomial_of left.now) (polynomial_of right.items)) }
{
    let [first, others @ ..] = left else {
        return Ok(are_zero(&right));
    };
    if first.coefficient == 0 {
        return same_polynomials(alloc, others, right);
    }
    let Some(rest) = taken(alloc, first, right)? else {
        return Ok(false);
    };
    same_polynomials(alloc, others, rest)
}

fn are_zero(list: &[Monomial]) -> bool
    ensures { result ≡ list_all is_zero (polynomial_of list.now) }
{
    list.iter().all(|monomial| is_zero(monomial))
}

fn is_zero(monomial: &Monomial) -> bool
    ensures { result ≡ is_zero (monomial_of monomial.now) }
{
    monomial.coefficient == 0
}

// The polynomial without the monomial of these atoms; None where it has another coefficient, or is not there.
fn taken(
    alloc: Global,
    monomial: &Monomial,
    mut list: Vec<Monomial>,
) -> Result<Option<Vec<Monomial>>, Memory>
    ensures { IfOk result (λ o. polynomial_in o ≡ taken (monomial_of monomial.now) (polynomial_of list.items)) }
{
    let Some(index) = place_of(alloc, &monomial.atoms, &list)? else {
        return Ok(None);
    };
    if list[index].coefficient != monomial.coefficient {
        return Ok(None);
    }
    list.remove(index);
    Ok(Some(list))
}
