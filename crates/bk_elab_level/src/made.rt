// The level that a component is, and what it adds to a development.

ghost use Rattle.std.specs.Option.{option_copied};
ghost use Rattle.std.specs.Prelude.{◌≡◌, ◌++◌, ◌∷◌, [], cond, length, map, replicate, IfOk, OnOk};
ghost use Rattle.bk_dev.specs.declared.kind.Home.TheVariants.{Input};
ghost use Rattle.bk_elab_terms.specs.Visible.{typing_of, visible_names};
ghost use Rattle.bk_statics.specs.Binders.{texts};
ghost use Rattle.bk_statics.specs.Components.{initialisation, inner_body, is_machine};
ghost use Rattle.bk_statics.specs.Elaborated.{elaborated};
ghost use Rattle.bk_statics.specs.LevelOf as meant;
ghost use Rattle.bk_statics.specs.Plan as planned;
ghost use Rattle.bk_scope.specs.Shown.{component_shown, declared_shown, is_blank, placed_shown, plan_shown, refs};

use crate::elaborated::{Elaboration, numbers, predicate_form};
use bk_dev::{Body, Home, Level, OpHead};
use bk_elab_terms::Visible;
use bk_form::{Form, Part};
use bk_gsl::Sub;
use bk_io::{Memory, Text};
use bk_raw::{RawName, RawOperation, RawSub, RawTerm};
use bk_scope::binders::{push_binder_texts, push_texts};
use bk_scope::bodies::{inner_body, outermost};
use bk_scope::component::{Blank, Component};
use bk_scope::number::ahead;
use bk_scope::plan::{Declared, Placed, Plan};
use bk_scope::sight::at_level;
use bk_scope::way::Typing;
use std::alloc::Global;

// ---- the level

// The component as a level.
pub fn level_made(
    typing: Typing<'_>,
    component: &Component<'_>,
    plan: &Plan<'_>,
    blank: &Blank,
) -> Result<Level, Memory>
    requires blank { is_blank component.now.at blank.now }
    requires operations { map placed_shown plan.now.operations.items ≡
        planned.operations_of (plan_shown plan.now) (component_shown component.now) }
    ensures { IfOk result (λ l. l ≡ meant.level_made typing.entry.max (typing_of typing.entry.types.now) (plan_shown plan.now)
        (component_shown component.now)) }
{
    let alloc = typing.alloc;
    let joined = plan.joined(alloc)?;
    Ok(Level {
        name: component.name.text.copy(alloc)?,
        kind: component.kind,
        vars: numbers(alloc, plan.variables_at, plan.variables.len())?,
        properties: stated(typing, &plan.globals, component.properties)?,
        invariant: stated(typing, &joined, component.invariant)?,
        links: links(alloc, plan)?,
        assertions: all_stated(typing, &joined, &component.assertions)?,
        init: start(typing, component, plan, blank)?,
        bodies: bodies(typing, plan)?,
    })
}

// What the initialisation reads as.
fn start(
    typing: Typing<'_>,
    component: &Component<'_>,
    plan: &Plan<'_>,
    blank: &Blank,
) -> Result<Sub, Memory>
    requires { is_blank component.now.at blank.now }
    ensures { IfOk result (λ s. s ≡ elaborated typing.entry.max (typing_of typing.entry.types.now) (plan_shown plan.now).upper
        (planned.scope (plan_shown plan.now)) plan.now.binders_at (initialisation (component_shown component.now))) }
{
    let scope = plan.scope(typing.alloc)?;
    let start = component.start(blank);
    read(typing, plan, &scope, plan.binders_at, start)
}

// What a substitution reads as under these names, where what it binds has the numbers from this one on.
fn read(
    typing: Typing<'_>,
    plan: &Plan<'_>,
    names: &[Visible<'_>],
    first: u32,
    sub: &RawSub,
) -> Result<Sub, Memory>
    ensures { IfOk result (λ s. s ≡ elaborated typing.entry.max (typing_of typing.entry.types.now) (plan_shown plan.now).upper
        (visible_names names.now) first sub.now) }
{
    let elaboration = Elaboration {
        typing,
        above: &plan.upper,
        names,
        first,
    };
    let read = elaboration.substitution(sub)?;
    Ok(read)
}

// What a clause's predicate reads as, which is `btrue` where there is no such clause.
fn stated(
    typing: Typing<'_>,
    names: &[Visible<'_>],
    predicate: Option<&RawTerm>,
) -> Result<Form, Memory>
    ensures { IfOk result (λ f. f ≡ meant.stated_as typing.entry.max (typing_of typing.entry.types.now)
        (visible_names names.now) (option_copied predicate.entry)) }
{
    match predicate {
        Some(predicate) => predicate_form(typing, names, predicate),
        None => Form::make(typing.alloc, Part::True),
    }
}

// What several predicates read as.
fn all_stated(
    typing: Typing<'_>,
    names: &[Visible<'_>],
    predicates: &[&RawTerm],
) -> Result<Vec<Form>, Memory>
    ensures { IfOk result (λ fs. fs.items ≡ meant.all_stated typing.entry.max (typing_of typing.entry.types.now)
        (visible_names names.now) (refs predicates.now)) }
{
    let mut found = Vec::new(typing.alloc);
    for predicate in predicates {
        found.push(predicate_form(typing, names, predicate)?)?;
    }
    Ok(found)
}

// Each variable with the one of its name above.
fn links(alloc: Global, plan: &Plan<'_>) -> Result<Vec<(u32, u32)>, Memory>
    ensures { IfOk result (λ ls. ls.items ≡
        planned.links_from plan.now.variables_at (map declared_shown plan.now.variables.items)) }
{
    let mut found = Vec::new(alloc);
    for (index, variable) in plan.variables.iter().enumerate() {
        let number = ahead(plan.variables_at, index)?;
        push_link(&mut found, number, variable.higher)?;
    }
    Ok(found)
}

// The variable with the one of its name above goes after the links that were found, where there is one.
fn push_link(found: &mut Vec<(u32, u32)>, number: u32, higher: Option<u32>) -> Result<(), Memory>
    ensures { OnOk result (found.new.items ≡ found.old.items ++ planned.link_of number higher []) }
{
    let Some(higher) = higher else {
        return Ok(());
    };
    found.push((number, higher))?;
    Ok(())
}

// The operations.
fn bodies(typing: Typing<'_>, plan: &Plan<'_>) -> Result<Vec<Body>, Memory>
    ensures { IfOk result (λ bs. bs.items ≡ meant.bodies_made typing.entry.max (typing_of typing.entry.types.now)
        (plan_shown plan.now) (map placed_shown plan.now.operations.items)) }
{
    let mut found = Vec::new(typing.alloc);
    for placed in &plan.operations {
        found.push(body(typing, plan, placed)?)?;
    }
    Ok(found)
}

// An operation: its outermost precondition, and the rest.
fn body(typing: Typing<'_>, plan: &Plan<'_>, placed: &Placed<'_>) -> Result<Body, Memory>
    ensures { IfOk result (λ b. b ≡ meant.body_made typing.entry.max (typing_of typing.entry.types.now)
        (plan_shown plan.now) (placed_shown placed.now)) }
{
    let operation = placed.operation;
    let scope = plan.body_scope(typing.alloc, placed)?;
    let inner = inner_body(&operation.body);
    Ok(Body {
        pre: stated(typing, &scope, outermost(&operation.body))?,
        sub: read(typing, plan, &scope, placed.binders_at, inner)?,
        outputs: numbers(typing.alloc, placed.outputs_at, operation.outputs.len())?,
    })
}

// ---- the table and homes

// How the component's numbers are written, in their order: variables and outputs with the level's number, all others
// with their names alone.
pub fn new_texts(
    alloc: Global,
    component: &Component<'_>,
    plan: &Plan<'_>,
    blank: &Blank,
) -> Result<Vec<Text>, Memory>
    requires { is_blank component.now.at blank.now }
    ensures { IfOk result (λ texts. texts.items ≡ meant.new_texts (plan_shown plan.now) (component_shown component.now)) }
{
    let mut found = Vec::new(alloc);
    push_constant_texts(alloc, &mut found, &component.constants)?;
    push_variable_texts(alloc, &mut found, plan.level, &plan.variables)?;
    push_input_texts(alloc, &mut found, component)?;
    push_output_texts(alloc, &mut found, plan.level, &plan.operations)?;
    push_binder_texts(alloc, &mut found, component.start(blank))?;
    push_bound_texts(alloc, &mut found, &plan.operations)?;
    Ok(found)
}

// The names of constants go after the texts that were found.
fn push_constant_texts(
    alloc: Global,
    found: &mut Vec<Text>,
    constants: &[&RawName],
) -> Result<(), Memory>
    ensures { OnOk result (found.new.items ≡ found.old.items ++ texts (refs constants.now)) }
{
    for constant in constants {
        found.push(constant.text.copy(alloc)?)?;
    }
    Ok(())
}

// The names of variables at a level do.
fn push_variable_texts(
    alloc: Global,
    found: &mut Vec<Text>,
    level: u32,
    variables: &[Declared<'_>],
) -> Result<(), Memory>
    ensures { OnOk result (found.new.items ≡
        found.old.items ++ meant.at_level level (planned.declared_texts (map declared_shown variables.now))) }
{
    for variable in variables {
        found.push(at_level(alloc, variable.text, level)?)?;
    }
    Ok(())
}

// The names of inputs do, where the component is a machine.
fn push_input_texts(
    alloc: Global,
    found: &mut Vec<Text>,
    component: &Component<'_>,
) -> Result<(), Memory>
    ensures { OnOk result (found.new.items ≡ found.old.items
        ++ cond (is_machine component.now.kind) (meant.input_texts (component_shown component.now).operations) []) }
{
    if !component.is_machine() {
        return Ok(());
    }
    for operation in &component.operations {
        push_texts(alloc, found, &operation.inputs)?;
    }
    Ok(())
}

// The names of outputs at a level do.
fn push_output_texts(
    alloc: Global,
    found: &mut Vec<Text>,
    level: u32,
    operations: &[Placed<'_>],
) -> Result<(), Memory>
    ensures { OnOk result (found.new.items ≡ found.old.items
        ++ meant.output_texts level (map (λ o. o.headed) (map placed_shown operations.now))) }
{
    for placed in operations {
        let operation = placed.operation;
        push_at_level(alloc, found, level, &operation.outputs)?;
    }
    Ok(())
}

// The names that bodies bind do.
fn push_bound_texts(
    alloc: Global,
    found: &mut Vec<Text>,
    operations: &[Placed<'_>],
) -> Result<(), Memory>
    ensures { OnOk result (found.new.items ≡ found.old.items
        ++ meant.bound_texts (map (λ o. o.headed) (map placed_shown operations.now))) }
{
    for placed in operations {
        let operation = placed.operation;
        push_binder_texts(alloc, found, &operation.body)?;
    }
    Ok(())
}

// Names at a level go after the texts that were found.
fn push_at_level(
    alloc: Global,
    found: &mut Vec<Text>,
    level: u32,
    names: &[RawName],
) -> Result<(), Memory>
    ensures { OnOk result (found.new.items ≡ found.old.items ++ meant.at_level level (texts names.now)) }
{
    for name in names {
        found.push(at_level(alloc, name.text.as_bytes(), level)?)?;
    }
    Ok(())
}

// The homes of the component's numbers, of which there are so many.
pub fn new_homes(
    alloc: Global,
    component: &Component<'_>,
    plan: &Plan<'_>,
    count: usize,
) -> Result<Vec<Home>, Memory>
    requires { count ≡ length (meant.new_texts (plan_shown plan.now) (component_shown component.now)) }
    ensures { IfOk result (λ homes. homes.items ≡ meant.new_homes (plan_shown plan.now) (component_shown component.now)) }
{
    let mut found = Vec::new(alloc);
    push_homes(&mut found, Home::Constant, component.constants.len())?;
    push_variable_homes(&mut found, plan.level, &plan.variables)?;
    push_input_homes(&mut found, component)?;
    let others = count.saturating_sub(found.len());
    push_homes(&mut found, Home::Inner(plan.level), others)?;
    Ok(found)
}

// The homes of variables of a level go after those that were found.
fn push_variable_homes(
    found: &mut Vec<Home>,
    level: u32,
    variables: &[Declared<'_>],
) -> Result<(), Memory>
    ensures { OnOk result (found.new.items ≡ found.old.items ++ meant.variable_homes level (map declared_shown variables.now)) }
{
    for variable in variables {
        found.push(home_of(level, *variable))?;
    }
    Ok(())
}

// Those of inputs do, where the component is a machine.
fn push_input_homes(found: &mut Vec<Home>, component: &Component<'_>) -> Result<(), Memory>
    ensures { OnOk result (found.new.items ≡ found.old.items ++ cond (is_machine component.now.kind)
        (meant.homes_as Input (meant.input_texts (component_shown component.now).operations)) []) }
{
    if !component.is_machine() {
        return Ok(());
    }
    for operation in &component.operations {
        push_homes(found, Home::Input, operation.inputs.len())?;
    }
    Ok(())
}

// Where a variable of the level is at home.
fn home_of(level: u32, variable: Declared<'_>) -> Home
    ensures { meant.variable_homes level (declared_shown variable.entry ∷ []) ≡ result ∷ [] }
{
    if variable.is_concrete {
        return Home::Concrete(level);
    }
    Home::Abstract(level)
}

// So many times the same home goes after those that were found.
fn push_homes(found: &mut Vec<Home>, home: Home, count: usize) -> Result<(), Memory>
    ensures { OnOk result (found.new.items ≡ found.old.items ++ replicate count home) }
{
    for _ in 0..count {
        found.push(home)?;
    }
    Ok(())
}

// The headers of a machine, whose inputs have the numbers from this one on.
pub fn machine_heads(
    alloc: Global,
    first: u32,
    operations: &[&RawOperation],
) -> Result<Vec<OpHead>, Memory>
    ensures { IfOk result (λ heads. heads.items ≡ planned.machine_heads first (refs operations.now)) }
{
    let mut found = Vec::new(alloc);
    let mut next = first;
    for operation in operations {
        found.push(head_of(alloc, next, operation)?)?;
        next = ahead(next, operation.inputs.len())?;
    }
    Ok(found)
}

// The header of an operation, whose inputs have the numbers from this one on.
fn head_of(alloc: Global, first: u32, operation: &RawOperation) -> Result<OpHead, Memory>
    ensures { IfOk result (λ head. head ∷ [] ≡ planned.machine_heads first (operation.now ∷ [])) }
{
    let Ok(outputs) = u32::try_from(operation.outputs.len()) else {
        return Err(Memory);
    };
    Ok(OpHead {
        name: operation.name.text.copy(alloc)?,
        inputs: numbers(alloc, first, operation.inputs.len())?,
        outputs,
    })
}
