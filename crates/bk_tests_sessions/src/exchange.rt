// The exchanging development, part by part.

ghost use Rattle.std.specs.Prelude.{◌≡◌, IfOk, pos};
ghost use Rattle.bk_form.specs.Formula.{variable, literal, binary};
ghost use Rattle.bk_form.specs.declared.operator.BinOp.TheVariants.{Apply};
ghost use Rattle.bk_gsl.specs.Substitution.{seq, par};
ghost use Rattle.bk_sim.specs.Exchange.{exchange_table, set_to, machine_level, is_positive, one_less, is_up_to_five, counting_down, swapping, code_level, exchange};

use crate::parts::{
    development, filling, header, is_array, level, number_first, operation, set_to_number,
    set_to_variable, variable_first, with_links,
};
use crate::table::{add_array, add_number};
use bk_dev::{Body, Development, Home, Kind, Level};
use bk_form::{BinOp, Form, VarTable};
use bk_gsl::Sub;
use bk_io::Memory;
use bk_tests_fixtures::{always, becomes, binary, literal, text, variable, with_number};
use std::alloc::Global;

fn table(alloc: Global) -> Result<VarTable, Memory>
    ensures { IfOk result (λ t. t ≡ exchange_table) }
{
    let mut table = VarTable::new(alloc);
    add_number(alloc, &mut table, b"x$0")?;
    add_number(alloc, &mut table, b"y$0")?;
    add_number(alloc, &mut table, b"x$1")?;
    add_number(alloc, &mut table, b"y$1")?;
    add_array(alloc, &mut table, b"f$1")?;
    add_number(alloc, &mut table, b"t")?;
    Ok(table)
}

// x := y || y := x
fn swapping_at_once(alloc: Global) -> Result<Sub, Memory>
    ensures { IfOk result (λ s. s ≡ par (set_to 0 (variable 1)) (set_to 1 (variable 0))) }
{
    let x = set_to_variable(alloc, 0, 1)?;
    let y = set_to_variable(alloc, 1, 0)?;
    Sub::par(alloc, x, y)
}

// x := 0 || y := 0
fn zero_at_once(alloc: Global) -> Result<Sub, Memory>
    ensures { IfOk result (λ s. s ≡ machine_level.init) }
{
    let x = set_to_number(alloc, 0, 0)?;
    let y = set_to_number(alloc, 1, 0)?;
    Sub::par(alloc, x, y)
}

fn machine_operation(alloc: Global) -> Result<Vec<Body>, Memory>
    ensures { IfOk result (λ bodies. bodies.items ≡ machine_level.bodies) }
{
    let swap = swapping_at_once(alloc)?;
    operation(alloc, swap, Vec::new(alloc))
}

fn machine(alloc: Global) -> Result<Level, Memory>
    ensures { IfOk result (λ l. l ≡ machine_level) }
{
    let init = zero_at_once(alloc)?;
    let invariant = always(alloc)?;
    let name = text(alloc, b"Exchange")?;
    let vars = vec![in alloc; 0, 1]?;
    let bodies = machine_operation(alloc)?;
    level(alloc, name, Kind::Machine, vars, invariant, init, bodies)
}

fn is_up_to_five(alloc: Global) -> Result<Form, Memory>
    ensures { IfOk result (λ f. f ≡ is_up_to_five) }
{
    let zero = literal(alloc, 0)?;
    let t = variable(alloc, 5)?;
    let low = binary(alloc, BinOp::Le, zero, t)?;
    let high = with_number(alloc, BinOp::Le, 5, 5)?;
    binary(alloc, BinOp::And, low, high)
}

fn is_positive(alloc: Global) -> Result<Form, Memory>
    ensures { IfOk result (λ f. f ≡ is_positive) }
{
    let zero = literal(alloc, 0)?;
    let t = variable(alloc, 5)?;
    binary(alloc, BinOp::Lt, zero, t)
}

// t := t - 1
fn counting_one(alloc: Global) -> Result<Sub, Memory>
    ensures { IfOk result (λ s. s ≡ set_to 5 one_less) }
{
    let less = with_number(alloc, BinOp::Sub, 5, 1)?;
    becomes(alloc, 5, less)
}

fn counting_down(alloc: Global) -> Result<Sub, Memory>
    ensures { IfOk result (λ s. s ≡ counting_down) }
{
    let test = is_positive(alloc)?;
    let invariant = is_up_to_five(alloc)?;
    let variant = variable(alloc, 5)?;
    let turn = counting_one(alloc)?;
    Sub::while_loop(alloc, test, turn, invariant, variant)
}

// t := f(1) ; t := 5 ; WHILE .. END
fn counting(alloc: Global) -> Result<Sub, Memory>
    ensures { IfOk result (λ s. s ≡ seq (set_to 5 (binary Apply (variable 4) (literal (pos 1)))) (seq (set_to 5 (literal (pos 5))) counting_down)) }
{
    let read = with_number(alloc, BinOp::Apply, 4, 1)?;
    let first = becomes(alloc, 5, read)?;
    let down = counting_down(alloc)?;
    let rest = number_first(alloc, 5, 5, down)?;
    Sub::seq(alloc, first, rest)
}

// t := x ; x := y ; y := t, before what follows.
fn exchanging(alloc: Global, rest: Sub) -> Result<Sub, Memory>
    ensures { IfOk result (λ s. s ≡ seq (set_to 5 (variable 2)) (seq (set_to 2 (variable 3)) (seq (set_to 3 (variable 5)) rest))) }
{
    let rest = variable_first(alloc, 3, 5, rest)?;
    let rest = variable_first(alloc, 2, 3, rest)?;
    variable_first(alloc, 5, 2, rest)
}

fn swapping(alloc: Global) -> Result<Sub, Memory>
    ensures { IfOk result (λ s. s ≡ swapping) }
{
    let count = counting(alloc)?;
    let steps = exchanging(alloc, count)?;
    let bound = vec![in alloc; 5]?;
    Sub::any(alloc, bound, steps)
}

fn initialisation(alloc: Global) -> Result<Sub, Memory>
    ensures { IfOk result (λ s. s ≡ code_level.init) }
{
    let fill = filling(alloc, 4)?;
    let rest = number_first(alloc, 3, 0, fill)?;
    number_first(alloc, 2, 0, rest)
}

fn code_operation(alloc: Global) -> Result<Vec<Body>, Memory>
    ensures { IfOk result (λ bodies. bodies.items ≡ code_level.bodies) }
{
    let swap = swapping(alloc)?;
    operation(alloc, swap, Vec::new(alloc))
}

fn implementation(alloc: Global) -> Result<Level, Memory>
    ensures { IfOk result (λ l. l ≡ code_level) }
{
    let links = vec![in alloc; (2, 0), (3, 1)]?;
    let init = initialisation(alloc)?;
    let invariant = is_array(alloc, 4)?;
    let name = text(alloc, b"Exchange_i")?;
    let vars = vec![in alloc; 2, 3, 4]?;
    let bodies = code_operation(alloc)?;
    let level = level(
        alloc,
        name,
        Kind::Implementation,
        vars,
        invariant,
        init,
        bodies,
    )?;
    Ok(with_links(level, links))
}

fn homes(alloc: Global) -> Result<Vec<Home>, Memory>
    ensures { IfOk result (λ homes. homes.items ≡ exchange.homes) }
{
    Ok(vec![in alloc;
        Home::Abstract(0),
        Home::Abstract(0),
        Home::Concrete(1),
        Home::Concrete(1),
        Home::Concrete(1),
        Home::Inner(1),
    ]?)
}

fn extents(alloc: Global) -> Result<Vec<(usize, usize)>, Memory>
    ensures { IfOk result (λ extents. extents.items ≡ exchange.extents) }
{
    Ok(vec![in alloc; (0, 2), (0, 6)]?)
}

fn levels(alloc: Global) -> Result<Vec<Level>, Memory>
    ensures { IfOk result (λ levels. levels.items ≡ exchange.levels) }
{
    let machine = machine(alloc)?;
    let implementation = implementation(alloc)?;
    Ok(vec![in alloc; machine, implementation]?)
}

/// The development that exchanges two numbers, fills an array and reads it, with a local and a loop.
#[tactic(auto, using(bk_sim::proofs::ExchangeFacts::exchange_facts))]
pub(crate) fn exchange(alloc: Global) -> Result<Development, Memory>
    ensures { IfOk result (λ d. d ≡ exchange) }
{
    let levels = levels(alloc)?;
    let heads = header(alloc, b"swap", Vec::new(alloc), 0)?;
    let homes = homes(alloc)?;
    let table = table(alloc)?;
    let extents = extents(alloc)?;
    Ok(development(alloc, table, homes, heads, levels, extents))
}
