//! Variables in place of variables.

ghost use Rattle.std.specs.Prelude.{◌≡◌, ◌<◌, ◌^◌, map, IfOk};
ghost use Rattle.bk_form.specs.Formula.{variable, formula_size, formulas_size, formulas_of};
ghost use Rattle.bk_form.specs.Replacement.{all_replaced, renamed};
ghost use Rattle.bk_bind.specs.Renaming.{new_name};

use bk_form::{Form, Part, Ty, View};
use bk_io::Memory;
use std::alloc::Global;

/// The formula with the second variable of each pair in place of the first; of several pairs that begin with one variable
/// the first counts. The formula may be of any size.
#[tactic(auto, using(crate::proofs::Renamed::renamed_sizes))]
pub fn rename(alloc: Global, form: &Form, pairs: &[(u32, u32)]) -> Result<Form, Memory>
    ensures { IfOk result (λ f. f ≡ renamed (new_name pairs.now) form.now) }
{
    let _nodes = form.size();
    renamed(alloc, form, pairs)
}

// The variable in place of this one.
fn new_name(pairs: &[(u32, u32)], number: u32) -> u32
    ensures { result ≡ new_name pairs.now number }
{
    for (variable, other) in pairs {
        if number == *variable {
            return *other;
        }
    }
    number
}

// The formula with the variables renamed.
#[tactic(auto, using(crate::proofs::Renamed::renaming))]
#[cycle(renamed)]
fn renamed(alloc: Global, form: &Form, pairs: &[(u32, u32)]) -> Result<Form, Memory>
    requires { formula_size (renamed (new_name pairs.now) form.now) < 2 ^ 32 }
    ensures { IfOk result (λ f. f ≡ renamed (new_name pairs.now) form.now) }
{
    match form.view() {
        View::Var(number) => Form::make(alloc, Part::Var(new_name(pairs, number))),
        View::Un(op, operand) => {
            let operand = renamed(alloc, operand, pairs)?;
            Form::make(alloc, Part::Un(op, operand))
        }
        View::Bin(op, left, right) => {
            let left = renamed(alloc, left, pairs)?;
            let right = renamed(alloc, right, pairs)?;
            Form::make(alloc, Part::Bin(op, left, right))
        }
        View::All(types, body) => {
            let body = renamed(alloc, body, pairs)?;
            Form::make(alloc, Part::All(Ty::copy_all(types, alloc)?, body))
        }
        View::Some(types, body) => {
            let body = renamed(alloc, body, pairs)?;
            Form::make(alloc, Part::Some(Ty::copy_all(types, alloc)?, body))
        }
        View::Compr(ranges, body) => {
            let ranges = all_renamed(alloc, ranges, pairs)?;
            let body = renamed(alloc, body, pairs)?;
            Form::make(alloc, Part::Compr(ranges, body))
        }
        View::Lam(ranges, body, value) => {
            let ranges = all_renamed(alloc, ranges, pairs)?;
            let body = renamed(alloc, body, pairs)?;
            let value = renamed(alloc, value, pairs)?;
            Form::make(alloc, Part::Lam(ranges, body, value))
        }
        _ => form.copy(alloc),
    }
}

// The formulas with the variables renamed.
#[tactic(auto, using(crate::proofs::Renamed::renaming))]
#[cycle(renamed)]
fn all_renamed(alloc: Global, forms: &[Form], pairs: &[(u32, u32)]) -> Result<Vec<Form>, Memory>
    requires { formulas_size (all_replaced (λ n. variable (new_name pairs.now n)) (formulas_of forms.now)) < 2 ^ 32 }
    ensures { IfOk result (λ fs. fs.items ≡ map (renamed (new_name pairs.now)) forms.now) }
{
    let mut others = Vec::new(alloc);
    for form in forms {
        others.push(renamed(alloc, form, pairs)?)?;
    }
    Ok(others)
}
