// The first of a component's faults but those of B0.

ghost use Rattle.std.specs.Prelude.{◌≡◌, [], length, map, IfOk};
ghost use Rattle.bk_dev.specs.Development.{Development};
ghost use Rattle.bk_dev.specs.Facts.{writes_own, HomesAreThere};
ghost use Rattle.bk_raw.specs.Errors.Blame.{blame};
ghost use Rattle.bk_elab_terms.specs.Shown.{told};
ghost use Rattle.bk_elab_terms.specs.Visible.{typing_of, visible_names};
ghost use Rattle.bk_elab.specs.Answered.{WritesOwn, bodies_judged, body_judged};
ghost use Rattle.bk_statics.specs.Components.{initialisation};
ghost use Rattle.bk_statics.specs.Plan.{plan as plan_of, scope};
ghost use Rattle.bk_scope.specs.Shown.{above_shown, component_shown, is_blank, placed_shown, plan_shown, IsPlanOf};
ghost use Rattle.bk_statics.specs.StaticFaults as meant;
ghost use Rattle.bk_statics.specs.ClauseFaults.{input_faults};
ghost use Rattle.bk_statics.specs.SubFaults.{declared_faults, sub_faults};

use bk_check_clauses::clause_fault::{clause_fault, input_fault};
use bk_check_clauses::headers::operation_fault;
use bk_check_clauses::name_fault::name_fault;
use bk_check_clauses::values::value_fault;
use bk_check_subs::judging::{Judge, declared_fault};
use bk_check_subs::left::Interval;
use bk_elab_terms::{Fault, earlier};
use bk_io::Memory;
use bk_raw::RawSub;
use bk_scope::above::Above;
use bk_scope::component::{Blank, Component};
use bk_scope::plan::{Placed, Plan};
use bk_scope::way::Typing;

// The first fault of a component below these levels, with this plan and these types.
pub(crate) fn static_fault(
    typing: Typing<'_>,
    above: Above<'_>,
    component: &Component<'_>,
    plan: &Plan<'_>,
    blank: &Blank,
) -> Result<Option<Fault>, Memory>
    requires blank { is_blank component.now.at blank.now }
    requires planned { IsPlanOf plan.now (above_shown above) (component_shown component.now) }
    requires all_at_home { length (above_shown above).homes ≡ length (above_shown above).table.variables }
    requires homes { HomesAreThere (above_shown above) }
    ensures { IfOk result (λ fault. told fault ≡ blame (meant.planned_faults typing.entry.max (above_shown above.entry)
        (component_shown component.now) (plan_of (above_shown above.entry) (component_shown component.now))
        (typing_of typing.entry.types.now))) }
{
    let alloc = typing.alloc;
    let names = name_fault(alloc, above, component)?;
    let clauses = clause_fault(typing, component, plan)?;
    let operations = operation_fault(alloc, above, component, plan, blank)?;
    let start = start_fault(typing, component, plan, blank)?;
    let bodies = bodies_fault(typing, plan)?;
    let values = value_fault(typing, above, component, plan)?;
    let written = earlier(bodies, values);
    let started = earlier(start, written);
    let shaped = earlier(operations, started);
    let stated = earlier(clauses, shaped);
    Ok(earlier(names, stated))
}

// The level's variables.
fn variables(plan: &Plan<'_>) -> Interval
    ensures first { result.first ≡ plan.now.variables_at }
    ensures count { result.count ≡ length plan.now.variables.items }
{
    Interval {
        first: plan.variables_at,
        count: plan.variables.len(),
    }
}

// That of the initialisation, which writes the level's variables.
fn start_fault(
    typing: Typing<'_>,
    component: &Component<'_>,
    plan: &Plan<'_>,
    blank: &Blank,
) -> Result<Option<Fault>, Memory>
    requires { is_blank component.now.at blank.now }
    ensures { IfOk result (λ fault. (dev : Development) → WritesOwn plan.now dev → told fault ≡
        blame (sub_faults typing.entry.max (typing_of typing.entry.types.now) (visible_names plan.now.upper.items) (scope (plan_shown plan.now))
        (writes_own dev plan.now.level []) plan.now.binders_at (initialisation (component_shown component.now)))) }
{
    let names = plan.scope(typing.alloc)?;
    let judge = Judge {
        typing,
        above: &plan.upper,
        names: &names,
        writable: &[variables(plan)],
        first: plan.binders_at,
    };
    let fault = judge.substitution(component.start(blank))?;
    Ok(fault)
}

// That of all bodies.
#[tactic(auto, using(bk_raw::proofs::Blamed::blames))]
fn bodies_fault(typing: Typing<'_>, plan: &Plan<'_>) -> Result<Option<Fault>, Memory>
    ensures { IfOk result (λ fault. (dev : Development) → WritesOwn plan.now dev → told fault ≡
        blame (bodies_judged typing.entry (typing_of typing.entry.types.now) plan.now dev (map placed_shown plan.now.operations.items))) }
{
    let mut fault = None;
    for placed in &plan.operations {
        fault = earlier(fault, body_fault(typing, plan, placed)?);
    }
    Ok(fault)
}

// That of a body, with its inputs and outputs; it writes its outputs too.
fn body_fault(
    typing: Typing<'_>,
    plan: &Plan<'_>,
    placed: &Placed<'_>,
) -> Result<Option<Fault>, Memory>
    ensures { IfOk result (λ fault. (dev : Development) → WritesOwn plan.now dev → told fault ≡
        blame (body_judged typing.entry (typing_of typing.entry.types.now) plan.now dev (placed_shown placed.now))) }
{
    let inputs = inputs_fault(typing, placed);
    let outputs = outputs_fault(typing, placed)?;
    let names = plan.body_scope(typing.alloc, placed)?;
    let judge = Judge {
        typing,
        above: &plan.upper,
        names: &names,
        writable: &[variables(plan), outputs_of(placed)],
        first: placed.binders_at,
    };
    let body = judge.substitution(body_of(placed))?;
    let written = earlier(outputs, body);
    Ok(earlier(inputs, written))
}

// That of an operation's inputs.
fn inputs_fault(typing: Typing<'_>, placed: &Placed<'_>) -> Option<Fault>
    ensures { told result ≡ blame (input_faults (typing_of typing.entry.types.now)
        (placed_shown placed.now).headed.inputs (placed_shown placed.now).headed.operation.inputs) }
{
    let operation = placed.operation;
    input_fault(typing, &placed.inputs, &operation.inputs)
}

// That of its outputs.
fn outputs_fault(typing: Typing<'_>, placed: &Placed<'_>) -> Result<Option<Fault>, Memory>
    ensures { IfOk result (λ fault. told fault ≡ blame (declared_faults (typing_of typing.entry.types.now)
        (placed_shown placed.now).outputs_at (placed_shown placed.now).headed.operation.outputs)) }
{
    let operation = placed.operation;
    declared_fault(typing, placed.outputs_at, &operation.outputs)
}

// The numbers of its outputs.
fn outputs_of(placed: &Placed<'_>) -> Interval
    ensures first { result.first ≡ (placed_shown placed.now).outputs_at }
    ensures count { result.count ≡ length (placed_shown placed.now).headed.operation.outputs }
{
    let operation = placed.operation;
    Interval {
        first: placed.outputs_at,
        count: operation.outputs.len(),
    }
}

// Its body.
fn body_of<'a>(placed: &Placed<'a>) -> &'a RawSub
    ensures { result.now ≡ (placed_shown placed.now).headed.operation.body }
{
    let operation = placed.operation;
    &operation.body
}
