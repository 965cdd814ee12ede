// The machine and the implementation of a member of the family, part by part.

ghost use Rattle.std.specs.Prelude.{◌≡◌, IfOk, false};
ghost use Rattle.bk_form.specs.Formula.{variable, truth_value};
ghost use Rattle.bk_gsl.specs.Substitution.{seq};
ghost use Rattle.bk_tests_sessions.specs.Drawn.{set_to, element_at, answering, starting, family_machine, family_code};

use crate::parts::{filling, is_array, level, number_first, operation, variable_first};
use bk_dev::{Body, Kind, Level};
use bk_form::{BinOp, Part};
use bk_gsl::Sub;
use bk_io::Memory;
use bk_tests_fixtures::{always, becomes, leaf, text, with_number};
use std::alloc::Global;

// ---- the machine

fn machine_operation(alloc: Global) -> Result<Vec<Body>, Memory>
    ensures { IfOk result (λ bodies. bodies.items ≡ family_machine.bodies) }
{
    let outputs = vec![in alloc; 5, 6, 7, 8, 9, 10]?;
    operation(alloc, Sub::skip(alloc)?, outputs)
}

/// The machine, whose operation does nothing.
pub(crate) fn machine(alloc: Global) -> Result<Level, Memory>
    ensures { IfOk result (λ l. l ≡ family_machine) }
{
    let name = text(alloc, b"Family")?;
    let invariant = always(alloc)?;
    let bodies = machine_operation(alloc)?;
    level(
        alloc,
        name,
        Kind::Machine,
        Vec::new(alloc),
        invariant,
        Sub::skip(alloc)?,
        bodies,
    )
}

// ---- what the operation answers

fn set_to_element(alloc: Global, x: u32, index: u32) -> Result<Sub, Memory>
    ensures { IfOk result (λ s. s ≡ set_to x (element_at index)) }
{
    let term = with_number(alloc, BinOp::Apply, 3, i128::from(index))?;
    becomes(alloc, x, term)
}

// x := an element ; rest
fn element_first(alloc: Global, x: u32, index: u32, rest: Sub) -> Result<Sub, Memory>
    ensures { IfOk result (λ s. s ≡ seq (set_to x (element_at index)) rest) }
{
    let first = set_to_element(alloc, x, index)?;
    Sub::seq(alloc, first, rest)
}

// The last three answers: the elements.
fn answering_elements(alloc: Global) -> Result<Sub, Memory>
    ensures { IfOk result (λ s. s ≡ seq (set_to 14 (element_at 0)) (seq (set_to 15 (element_at 1)) (set_to 16 (element_at 2)))) }
{
    let last = set_to_element(alloc, 16, 2)?;
    let rest = element_first(alloc, 15, 1, last)?;
    element_first(alloc, 14, 0, rest)
}

fn answering(alloc: Global) -> Result<Sub, Memory>
    ensures { IfOk result (λ s. s ≡ answering) }
{
    let rest = answering_elements(alloc)?;
    let rest = variable_first(alloc, 13, 2, rest)?;
    let rest = variable_first(alloc, 12, 1, rest)?;
    variable_first(alloc, 11, 0, rest)
}

// ---- the initialisation

fn set_to_false(alloc: Global, x: u32) -> Result<Sub, Memory>
    ensures { IfOk result (λ s. s ≡ set_to x (truth_value false)) }
{
    let term = leaf(alloc, Part::Bool(false))?;
    becomes(alloc, x, term)
}

fn initialisation(alloc: Global) -> Result<Sub, Memory>
    ensures { IfOk result (λ s. s ≡ starting) }
{
    let b = set_to_false(alloc, 2)?;
    let fill = filling(alloc, 3)?;
    let rest = Sub::seq(alloc, b, fill)?;
    let rest = number_first(alloc, 1, 0, rest)?;
    number_first(alloc, 0, 0, rest)
}

// ---- the implementation

fn code_operation(alloc: Global, sub: Sub) -> Result<Vec<Body>, Memory>
    ensures { IfOk result (λ bodies. bodies.items ≡ (family_code sub).bodies) }
{
    let answers = answering(alloc)?;
    let whole = Sub::seq(alloc, sub, answers)?;
    let outputs = vec![in alloc; 11, 12, 13, 14, 15, 16]?;
    operation(alloc, whole, outputs)
}

/// The implementation, whose operation does a statement and answers.
pub(crate) fn implementation(alloc: Global, sub: Sub) -> Result<Level, Memory>
    ensures { IfOk result (λ l. l ≡ family_code sub) }
{
    let bodies = code_operation(alloc, sub)?;
    let init = initialisation(alloc)?;
    let invariant = is_array(alloc, 3)?;
    let name = text(alloc, b"Family_i")?;
    let vars = vec![in alloc; 0, 1, 2, 3]?;
    level(
        alloc,
        name,
        Kind::Implementation,
        vars,
        invariant,
        init,
        bodies,
    )
}
