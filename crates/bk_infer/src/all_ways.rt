// The ways of all names that a component declares, in the order of their numbers.

ghost use Rattle.std.specs.Option.{option_map};
ghost use Rattle.std.specs.Prelude.{◌≡◌, ◌++◌, [], cond, map, IfOk, OnOk};
ghost use Rattle.bk_elab_terms.specs.Visible.{visible_names};
ghost use Rattle.bk_dev.specs.declared.kind.Kind.TheVariants.{Machine};
ghost use Rattle.bk_statics.specs.Components.{is_machine};
ghost use Rattle.bk_statics.specs.LevelOf as meant;
ghost use Rattle.bk_statics.specs.Plan.{fresh};
ghost use Rattle.bk_infer.specs.Listed.{AreAllWays};
ghost use Rattle.bk_scope.specs.Shown.{component_shown, declared_shown, placed_shown, plan_shown, way_shown, variable_way_shown, is_blank};

use crate::group::{group_by, member, push_by};
use crate::ways::{Place, push_assigned, push_ways, references, way_from};
use bk_dev::Kind;
use bk_elab_terms::Visible;
use bk_io::Memory;
use bk_raw::{RawName, RawTerm};
use bk_scope::bodies::{inner_body, outermost};
use bk_scope::component::{Blank, Component};
use bk_scope::plan::{Declared, Placed, Plan, fresh};
use bk_scope::sight::variable_of;
use bk_scope::way::{Group, Way};
use std::alloc::Global;
use std::rc::Rc;

/// All ways: of constants by PROPERTIES, of variables by INVARIANT, of inputs by the machine's preconditions, of outputs,
/// and of what the initialisation and the bodies bind.
pub fn all_ways<'a>(
    alloc: Global,
    plan: &Plan<'a>,
    component: &Component<'a>,
    blank: &'a Blank,
) -> Result<Vec<Way<'a>>, Memory>
    requires blank { is_blank component.now.at blank.now }
    ensures { IfOk result (λ ways. AreAllWays plan.now component.now ways.items) }
{
    let mut found = Vec::new(alloc);
    push_by(
        alloc,
        &plan.globals,
        component.properties,
        &component.constants,
        &mut found,
    )?;
    push_variables(alloc, plan, component, &mut found)?;
    push_new_inputs(alloc, component.kind, plan, &mut found)?;
    push_outputs(alloc, component.kind, plan, &mut found)?;
    let start = Place {
        names: Rc::new(alloc, plan.scope(alloc)?)?,
        first: plan.binders_at,
    };
    push_ways(alloc, &start, component.start(blank), &mut found)?;
    push_binders(alloc, plan, &mut found)?;
    Ok(found)
}

// The ways of the level's variables: a variable that stands above has the type that it has there, and the others have
// theirs by the invariant's conjuncts.
fn push_variables<'a>(
    alloc: Global,
    plan: &Plan<'a>,
    component: &Component<'a>,
    found: &mut Vec<Way<'a>>,
) -> Result<(), Memory>
    ensures { OnOk result (map way_shown found.new.items ≡ map way_shown found.old.items ++
        meant.variable_ways (visible_names plan.now.upper.items ++ visible_names plan.now.globals.items)
        (component_shown component.now).invariant
        (fresh (visible_names plan.now.upper.items) (component_shown component.now).variables) 0
        (map declared_shown plan.now.variables.items)) }
{
    let around = plan.upper_globals(alloc)?;
    let new = fresh(alloc, &plan.upper, &component.variables)?;
    let group = group_by(alloc, &around, component.invariant, &new)?;
    let mut place: usize = 0;
    for variable in &plan.variables {
        found.push(variable_way(&group, place, *variable)?)?;
        place = next_place(place, *variable)?;
    }
    Ok(())
}

// The way of a variable, before which so many new ones stand.
fn variable_way<'a>(
    group: &Option<Rc<Group<'a>>>,
    place: usize,
    variable: Declared<'_>,
) -> Result<Way<'a>, Memory>
    ensures { IfOk result (λ way. way_shown way ≡ variable_way_shown (option_map (λ g. g.value) group.now) place variable.entry.higher) }
{
    match variable.higher {
        Some(higher) => Ok(Way::Same(higher)),
        None => member(group, place),
    }
}

// How many new variables there are up to one.
fn next_place(place: usize, variable: Declared<'_>) -> Result<usize, Memory>
    ensures { IfOk result (λ n. n ≡ meant.next_place place variable.entry.higher) }
{
    if variable.higher.is_some() {
        return Ok(place);
    }
    match place.checked_add(1) {
        Some(next) => Ok(next),
        None => Err(Memory),
    }
}

// The ways of a machine's inputs; those of other components are the machine's.
fn push_new_inputs<'a>(
    alloc: Global,
    kind: Kind,
    plan: &Plan<'a>,
    found: &mut Vec<Way<'a>>,
) -> Result<(), Memory>
    ensures { OnOk result (map way_shown found.new.items ≡ map way_shown found.old.items ++
        cond (is_machine kind) (meant.all_input_ways (plan_shown plan.now) (map placed_shown plan.now.operations.items)) []) }
{
    if kind != Kind::Machine {
        return Ok(());
    }
    push_inputs(alloc, plan, found)
}

// The ways of inputs, by the outermost preconditions of the machine.
fn push_inputs<'a>(alloc: Global, plan: &Plan<'a>, found: &mut Vec<Way<'a>>) -> Result<(), Memory>
    ensures { OnOk result (map way_shown found.new.items ≡ map way_shown found.old.items ++
        meant.all_input_ways (plan_shown plan.now) (map placed_shown plan.now.operations.items)) }
{
    for placed in &plan.operations {
        let around = plan.input_scope(alloc, placed)?;
        let operation = placed.operation;
        let names = references(alloc, &operation.inputs)?;
        push_by(alloc, &around, outermost(&operation.body), &names, found)?;
    }
    Ok(())
}

// The ways of outputs.
fn push_outputs<'a>(
    alloc: Global,
    kind: Kind,
    plan: &Plan<'a>,
    found: &mut Vec<Way<'a>>,
) -> Result<(), Memory>
    ensures { OnOk result (map way_shown found.new.items ≡ map way_shown found.old.items ++
        meant.all_output_ways kind (plan_shown plan.now) (map placed_shown plan.now.operations.items)) }
{
    for placed in &plan.operations {
        if kind == Kind::Machine {
            push_machine_outputs(alloc, plan, placed, found)?;
        } else {
            push_lower_outputs(placed, found)?;
        }
    }
    Ok(())
}

// At the machine an output has the type of its first assignment.
fn push_machine_outputs<'a>(
    alloc: Global,
    plan: &Plan<'a>,
    placed: &Placed<'a>,
    found: &mut Vec<Way<'a>>,
) -> Result<(), Memory>
    ensures { OnOk result (map way_shown found.new.items ≡ map way_shown found.old.items ++
        meant.output_ways Machine (plan_shown plan.now) (placed_shown placed.now)) }
{
    let operation = placed.operation;
    let place = Place {
        names: Rc::new(alloc, plan.body_scope(alloc, placed)?)?,
        first: placed.binders_at,
    };
    push_assigned(
        alloc,
        &place,
        &operation.body,
        placed.outputs_at,
        &operation.outputs,
        found,
    )
}

// Below, an output has the type of the machine's output of its name.
fn push_lower_outputs<'a>(placed: &Placed<'a>, found: &mut Vec<Way<'a>>) -> Result<(), Memory>
    ensures { OnOk result (map way_shown found.new.items ≡ map way_shown found.old.items ++
        meant.lower_output_ways (visible_names placed.now.machine_outputs.items) placed.now.operation.now.outputs) }
{
    let operation = placed.operation;
    for output in &operation.outputs {
        let way = way_from(variable_of(&placed.machine_outputs, output.text.as_bytes()));
        found.push(way)?;
    }
    Ok(())
}

// The ways of all that bodies bind.
fn push_binders<'a>(alloc: Global, plan: &Plan<'a>, found: &mut Vec<Way<'a>>) -> Result<(), Memory>
    ensures { OnOk result (map way_shown found.new.items ≡ map way_shown found.old.items ++
        meant.all_binder_ways (plan_shown plan.now) (map placed_shown plan.now.operations.items)) }
{
    for placed in &plan.operations {
        let place = Place {
            names: Rc::new(alloc, plan.body_scope(alloc, placed)?)?,
            first: placed.binders_at,
        };
        let operation = placed.operation;
        push_ways(alloc, &place, &operation.body, found)?;
    }
    Ok(())
}
