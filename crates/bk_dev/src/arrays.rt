//! The arrays of an implementation.

ghost use Rattle.std.specs.Prelude.{◌≡◌, ◌<◌, true, [], ◌++◌, length, IfOk, OnOk, Some};
ghost use Rattle.std.specs.List.{cons_option, filter_map};
ghost use Rattle.bk_dev.specs.Codes.ClueView.{clue_seen, found_row};
ghost use Rattle.bk_dev.specs.Development.{is_complete, int_max, level_at, last};
ghost use Rattle.bk_dev.specs.Layout.{arrays_of, row_by, has_scalars, is_scalar, indices_of, interval_of, bound_of, constant_bound, literal_of};

use crate::clues::{Found, clue_in};
use crate::development::Development;
use bk_form::{ArrayDomain, ArrayRow, Arrays, BinOp, Domain, Form, Ty, TyView, View};
use bk_io::Memory;
use std::alloc::Global;

impl Development {
    /// The arrays among the variables of the implementation, in their order.
    pub fn arrays(&self, alloc: Global) -> Result<Arrays, Memory>
        requires { is_complete self.now ≡ true }
        ensures { IfOk result (λ arrays. arrays ≡ arrays_of self.now) }
    {
        self.facts();
        let rows = rows_of(alloc, self, last_variables(self))?;
        Ok(Arrays::from_rows(self.int_max(), rows))
    }
}

// The variables of the last level.
fn last_variables(dev: &Development) -> &[u32]
    requires { 0 < length dev.now.levels }
    ensures { result.now ≡ (level_at dev.now (last dev.now)).vars }
{
    let levels = &dev.levels;
    &levels[levels.len() - 1].vars
}

// The arrays among these variables.
fn rows_of(alloc: Global, dev: &Development, variables: &[u32]) -> Result<Vec<ArrayRow>, Memory>
    ensures { IfOk result (λ rows. rows.items ≡ filter_map (found_row dev.now) variables.now) }
{
    let mut rows = Vec::new(alloc);
    for variable in variables {
        let found = clue_in(alloc, &dev.levels, *variable)?;
        add_row(dev, found, *variable, &mut rows)?;
    }
    Ok(rows)
}

// Adds the array that a clue makes of a variable, if it makes one.
fn add_row(
    dev: &Development,
    found: Found,
    variable: u32,
    rows: &mut Vec<ArrayRow>,
) -> Result<(), Memory>
    ensures { OnOk result (rows.new.items ≡ rows.old.items ++ cons_option (row_by dev.now variable (clue_seen found)) []) }
{
    match row_of(dev, found, variable) {
        Some(row) => {
            rows.push(row)?;
            Ok(())
        }
        None => Ok(()),
    }
}

// The array that a clue makes of a variable, if it makes one.
fn row_of(dev: &Development, found: Found, variable: u32) -> Option<ArrayRow>
    ensures { result ≡ row_by dev.now variable (clue_seen found) }
{
    let Found::InDomain(domain) = &found else {
        return None;
    };
    let View::Bin(BinOp::TotalFunctions, source, _) = domain.view() else {
        return None;
    };
    if !dev.table.ty(variable).is_some_and(|ty| has_scalars(ty)) {
        return None;
    }
    let domain = indices(dev.int_max(), &dev.values, source)?;
    Some(ArrayRow {
        var: variable,
        domain,
    })
}

/// Whether a type is one of functions to numbers, truth values or elements.
pub fn has_scalars(ty: &Ty) -> bool
    ensures { result ≡ has_scalars (Some ty.now) }
{
    match ty.view() {
        TyView::Set(members) => match members.view() {
            TyView::Pair(_, value) => is_scalar(value),
            _ => false,
        },
        _ => false,
    }
}

// Whether a type is that of numbers, truth values or elements.
fn is_scalar(ty: &Ty) -> bool
    ensures { result ≡ is_scalar ty.now }
{
    !matches!(ty.view(), TyView::Pair(..) | TyView::Set(_))
}

/// The index set that the source of an arrow is, if it is one, where constants have these values and MAXINT is `max`.
pub fn indices(max: i64, values: &[(u32, Form)], source: &Form) -> Option<ArrayDomain>
    ensures { result ≡ indices_of max values.now source.now }
{
    match source.view() {
        View::Bin(BinOp::Range, low, high) => {
            interval(max, bound(values, low)?, bound(values, high)?)
        }
        View::Name(Domain::Bool) => Some(ArrayDomain::Bool),
        View::Name(Domain::Enum(set)) => Some(ArrayDomain::Set(set)),
        _ => None,
    }
}

// The interval of two numbers within INT, where it is not empty.
fn interval(max: i64, low: i128, high: i128) -> Option<ArrayDomain>
    ensures { result ≡ interval_of max (Some low) (Some high) }
{
    let most = i128::from(max);
    if -most <= low && low <= high && high <= most {
        return Some(ArrayDomain::Interval {
            low: low as i64,
            high: high as i64,
        });
    }
    None
}

// The number of a literal, or of a constant with a literal as its value.
fn bound(values: &[(u32, Form)], form: &Form) -> Option<i128>
    ensures { result ≡ bound_of values.now form.now }
{
    match form.view() {
        View::Int(value) => Some(value),
        View::Var(constant) => value_of(values, constant),
        _ => None,
    }
}

// The literal that VALUES gives to a constant.
fn value_of(values: &[(u32, Form)], constant: u32) -> Option<i128>
    ensures { result ≡ constant_bound constant values.now }
{
    for (number, value) in values {
        if constant == *number {
            return literal(value);
        }
    }
    None
}

// The number of a literal.
fn literal(form: &Form) -> Option<i128>
    ensures { result ≡ literal_of form.now }
{
    match form.view() {
        View::Int(value) => Some(value),
        _ => None,
    }
}
