// Faults of a component's clauses, and declared names without a type.

ghost use Rattle.std.specs.Option.{option_copied};
ghost use Rattle.std.specs.Prelude.{◌≡◌, [], None, cond, map, IfOk};
ghost use Rattle.bk_raw.specs.Meaning.Binders.{has_type};
ghost use Rattle.bk_raw.specs.Meaning.Outcome as wanted;
ghost use Rattle.bk_raw.specs.Errors.Blame.{blame};
ghost use Rattle.bk_elab_terms.specs.Shown.{told};
ghost use Rattle.bk_elab_terms.specs.Visible.{meaning_of, typing_of, visible_names};
ghost use Rattle.bk_check_clauses.specs.Kept.{clause_faults_by};
ghost use Rattle.bk_statics.specs.ClauseFaults as meant;
ghost use Rattle.bk_statics.specs.SubFaults.{term_faults};
ghost use Rattle.bk_scope.specs.Shown.{declared_shown, variables_shown, refs, is_typed};

use bk_elab_terms::{Fault, Standing, Visible, earlier};
use bk_io::Memory;
use bk_raw::{RawName, RawSet, RawTerm, RawValue};
use bk_scope::component::Component;
use bk_scope::faults::no_type_unless;
use bk_scope::number::ahead;
use bk_scope::places::place_of;
use bk_scope::plan::{Declared, Plan};
use bk_scope::types::is_flat;
use bk_scope::way::Typing;

/// The first fault of the component's clauses.
#[tactic(auto, using(bk_raw::proofs::Blamed::blames))]
pub fn clause_fault(
    typing: Typing<'_>,
    component: &Component<'_>,
    plan: &Plan<'_>,
) -> Result<Option<Fault>, Memory>
    ensures { IfOk result (λ fault. told fault ≡ blame (clause_faults_by typing.entry component.now plan.now)) }
{
    let sets = set_fault(&component.sets);
    let constants = constant_fault(typing, plan.constants_at, &component.constants)?;
    let variables = variable_fault(typing, component, plan)?;
    let properties = stated_fault(typing, &plan.globals, component.properties)?;
    let joined = plan.joined(typing.alloc)?;
    let invariant = stated_fault(typing, &joined, component.invariant)?;
    let assertions = all_stated_fault(typing, &joined, &component.assertions)?;
    let entries = entry_fault(typing, &plan.globals, &component.values)?;
    let clauses = earlier(properties, earlier(invariant, earlier(assertions, entries)));
    Ok(earlier(sets, earlier(constants, earlier(variables, clauses))))
}

// That of sets that are names alone, which are no types yet.
fn set_fault(sets: &[&RawSet]) -> Option<Fault>
    ensures { told result ≡ blame (meant.set_faults (refs sets.now)) }
{
    let mut fault = None;
    for set in sets {
        fault = earlier(fault, lone_set(set));
    }
    fault
}

// That of a set, if it is a name alone.
fn lone_set(set: &RawSet) -> Option<Fault>
    ensures { told result ≡ blame (cond (meant.has_name set.now.elements) [] (wanted.no_type set.now.name.at)) }
{
    no_type_unless(has_name(&set.elements), set.name.at)
}

// Whether there is a name.
fn has_name(names: &[RawName]) -> bool
    ensures { result ≡ meant.has_name names.now }
{
    !names.is_empty()
}

// That of constants, whose numbers are those from this one on: those without a type, and those that are pairs or sets.
fn constant_fault(
    typing: Typing<'_>,
    first: u32,
    constants: &[&RawName],
) -> Result<Option<Fault>, Memory>
    ensures { IfOk result (λ fault. told fault ≡
        blame (meant.constant_faults (typing_of typing.entry.types.now) first (refs constants.now))) }
{
    let mut fault = None;
    for (index, constant) in constants.iter().enumerate() {
        let number = ahead(first, index)?;
        fault = earlier(fault, numbered_constant(typing, number, constant));
    }
    Ok(fault)
}

// That of the constant with this number.
fn numbered_constant(typing: Typing<'_>, number: u32, constant: &RawName) -> Option<Fault>
    ensures { told result ≡
        blame (cond (meant.is_flat (typing_of typing.entry.types.now number)) [] (wanted.no_type constant.now.at)) }
{
    no_type_unless(is_flat(typing, number), constant.at)
}

// That of variables without a type; what is not declared here stands at the component's name.
fn variable_fault(
    typing: Typing<'_>,
    component: &Component<'_>,
    plan: &Plan<'_>,
) -> Result<Option<Fault>, Memory>
    ensures { IfOk result (λ fault. told fault ≡ blame (meant.variable_faults (typing_of typing.entry.types.now)
        component.now.name.now.at (variables_shown component.now.variables.items) plan.now.variables_at
        (map declared_shown plan.now.variables.items))) }
{
    let mut fault = None;
    for (index, variable) in plan.variables.iter().enumerate() {
        let number = ahead(plan.variables_at, index)?;
        fault = earlier(
            fault,
            numbered_variable(typing, component, number, *variable),
        );
    }
    Ok(fault)
}

// That of the variable with this number.
fn numbered_variable(
    typing: Typing<'_>,
    component: &Component<'_>,
    number: u32,
    variable: Declared<'_>,
) -> Option<Fault>
    ensures { told result ≡ blame (cond (has_type (typing_of typing.entry.types.now number)) [] (wanted.no_type
        (meant.place_or component.now.name.now.at
        (meant.declared_at (variables_shown component.now.variables.items) variable.entry.text.now)))) }
{
    no_type_unless(typing.has(number), place_of(component, variable))
}

/// That of inputs without a type; these are their names in scope, in order.
pub fn input_fault<'a>(
    typing: Typing<'a>,
    names: &'a [Visible<'a>],
    inputs: &[RawName],
) -> Option<Fault>
    ensures { told result ≡
        blame (meant.input_faults (typing_of typing.entry.types.now) (visible_names names.now) inputs.now) }
{
    let mut fault = None;
    for (index, input) in inputs.iter().enumerate() {
        if index >= names.len() {
            return fault;
        }
        fault = earlier(fault, untyped_input(typing, names[index], input));
    }
    fault
}

// That of an input, which is this name in scope.
fn untyped_input(typing: Typing<'_>, name: Visible<'_>, input: &RawName) -> Option<Fault>
    ensures { told result ≡ blame (
        cond (is_typed (typing_of typing.entry.types.now) (meaning_of name.entry.meaning)) [] (wanted.no_type input.now.at)) }
{
    no_type_unless(is_typed_name(typing, name), input.at)
}

// Whether a name is that of a variable that has a type.
fn is_typed_name(typing: Typing<'_>, name: Visible<'_>) -> bool
    ensures { result ≡ is_typed (typing_of typing.entry.types.now) (meaning_of name.entry.meaning) }
{
    match name.meaning {
        Standing::Variable(variable) => typing.has(variable),
        _ => false,
    }
}

// That of a clause's predicate, if there is one.
fn stated_fault<'a>(
    typing: Typing<'a>,
    names: &'a [Visible<'a>],
    predicate: Option<&RawTerm>,
) -> Result<Option<Fault>, Memory>
    ensures { IfOk result (λ fault. told fault ≡ blame (meant.stated_faults typing.entry.max
        (typing_of typing.entry.types.now) (visible_names names.now) (option_copied predicate.entry))) }
{
    let Some(predicate) = predicate else {
        return Ok(None);
    };
    let asked = typing.under(names).predicate(predicate)?;
    Ok(asked.fault)
}

// That of several predicates.
fn all_stated_fault<'a>(
    typing: Typing<'a>,
    names: &'a [Visible<'a>],
    predicates: &[&RawTerm],
) -> Result<Option<Fault>, Memory>
    ensures { IfOk result (λ fault. told fault ≡ blame (meant.all_stated_faults typing.entry.max
        (typing_of typing.entry.types.now) (visible_names names.now) (refs predicates.now))) }
{
    let mut fault = None;
    for predicate in predicates {
        fault = earlier(fault, stated_fault(typing, names, Some(predicate))?);
    }
    Ok(fault)
}

// That of the terms of VALUES, each of which gives a type.
fn entry_fault<'a>(
    typing: Typing<'a>,
    globals: &'a [Visible<'a>],
    values: &[&RawValue],
) -> Result<Option<Fault>, Memory>
    ensures { IfOk result (λ fault. told fault ≡ blame (meant.entry_faults typing.entry.max
        (typing_of typing.entry.types.now) (visible_names globals.now) (refs values.now))) }
{
    let mut fault = None;
    for entry in values {
        fault = earlier(fault, untyped_entry(typing, globals, entry)?);
    }
    Ok(fault)
}

// That of an entry's term.
fn untyped_entry<'a>(
    typing: Typing<'a>,
    globals: &'a [Visible<'a>],
    entry: &RawValue,
) -> Result<Option<Fault>, Memory>
    ensures { IfOk result (λ fault. told fault ≡ blame (term_faults typing.entry.max
        (typing_of typing.entry.types.now) (visible_names globals.now) None entry.now.value)) }
{
    let asked = typing.under(globals).value(&entry.value)?;
    Ok(asked.fault)
}
