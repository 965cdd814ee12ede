// Formulas that tests of several kinds need: binders, and formulas of a given size or height.

ghost use Rattle.std.specs.Prelude.{◌≡◌, ◌<◌, IfOk};
ghost use Rattle.bk_form.specs.Formula.{formula_size};

use crate::formulas::{unary, variable};
use bk_form::{BinOp, Form, Part, Ty, UnOp};
use bk_io::Memory;
use std::alloc::Global;

/// `!b.(body)` over whole numbers.
pub fn all(alloc: Global, body: Form) -> Result<Form, Memory> {
    if body.size() > 1000 {
        return Err(Memory);
    }
    let types = vec![in alloc; Ty::int()]?;
    Form::make(alloc, Part::All(types, body))
}

/// `#b.(body)` over whole numbers.
pub fn some(alloc: Global, body: Form) -> Result<Form, Memory> {
    if body.size() > 1000 {
        return Err(Memory);
    }
    let types = vec![in alloc; Ty::int()]?;
    Form::make(alloc, Part::Some(types, body))
}

/// `{a, b | a : first & b : second & body}`
pub fn comprehension(alloc: Global, first: Form, second: Form, body: Form) -> Result<Form, Memory> {
    if first.size() + second.size() + body.size() > 1000 {
        return Err(Memory);
    }
    let ranges = vec![in alloc; first, second]?;
    Form::make(alloc, Part::Compr(ranges, body))
}

/// `%a.(a : range & body | value)`
pub fn lambda(alloc: Global, range: Form, body: Form, value: Form) -> Result<Form, Memory> {
    if range.size() + body.size() + value.size() > 1000 {
        return Err(Memory);
    }
    let ranges = vec![in alloc; range]?;
    Form::make(alloc, Part::Lam(ranges, body, value))
}

/// A low formula of so many nodes, all of whose leaves are x0. Its halves are shared.
pub fn of_size(alloc: Global, nodes: u32) -> Result<Form, Memory>
    requires { 0 < nodes }
    ensures { IfOk result (λ f. formula_size f ≡ nodes) }
{
    if nodes == 1 {
        return Form::make(alloc, Part::Var(0));
    }
    if nodes % 2 == 0 {
        let part = of_size(alloc, nodes - 1)?;
        return Form::make(alloc, Part::Un(UnOp::Not, part));
    }
    let half = of_size(alloc, nodes / 2)?;
    let other = half.copy(alloc)?;
    Form::make(alloc, Part::Bin(BinOp::And, half, other))
}

/// A formula of so many nodes on one way down, above x0.
pub fn of_height(alloc: Global, height: u32) -> Result<Form, Memory> {
    let mut form = variable(alloc, 0)?;
    for _ in 1..height {
        form = unary(alloc, UnOp::Not, form)?;
    }
    Ok(form)
}
