//! The hypotheses of the obligations.

ghost use Rattle.std.specs.Prelude.{◌≡◌, ◌++◌, ◌<◌, ◌≤◌, ◌^◌, suc, cond, map, length, [], All, IfOk, OnOk};
ghost use Rattle.std.specs.List.{flat_map, filter};
ghost use Rattle.bk_form.specs.Formula.{formula_size};
ghost use Rattle.bk_form.specs.Table.{variable_type};
ghost use Rattle.bk_dev.specs.Development.{inputs_of, body_of, is_implementation};
ghost use Rattle.bk_dev.specs.Hypotheses.{size_equations_of, size_equations_from, size_equations, value_equation};
ghost use Rattle.bk_dev.specs.Hypotheses.{properties_of, values_at, joining, facts_of, conditions_of, is_number};
ghost use Rattle.bk_dev.specs.Hypotheses.{in_machine_range, input_ranges, init_hypotheses, body_hypotheses, operation_hypotheses};
ghost use Rattle.bk_form.specs.Predicates.{conjuncts, equation};
ghost use Rattle.bk_po.specs.Obligations.{hypotheses_of};
ghost use Rattle.bk_po.specs.Supposed.{IsKnownAt};

use crate::clause::Clause;
use crate::flattening::FlatDevelopment;
use bk_dev::{EnumSet, Kind, Level};
use bk_form::{BinOp, Domain, Form, Part, TyView, UnOp, VarTable};
use bk_io::Memory;
use bk_seq::add_conjuncts;
use std::alloc::Global;

/// What is supposed at a level. Each list but the first begins with the one before it, and they share their formulas.
#[derive(Drop)]
pub(crate) struct Known {
    /// The properties of the levels above.
    pub properties: Vec<Form>,
    /// With those of the level and, at an implementation, the constants' values.
    pub begins: Vec<Form>,
    /// With what the levels above state.
    pub before: Vec<Form>,
    /// With the level's invariant and links.
    pub joined: Vec<Form>,
    /// With its assertions.
    pub all: Vec<Form>,
}

/// What is supposed at a level, from what the levels above state, to which it adds what the level states: so each equation of a link is made
/// once.
#[tactic(auto, using(crate::proofs::Supposing::supposing))]
pub(crate) fn known_at(
    alloc: Global,
    dev: &FlatDevelopment<'_>,
    level: usize,
    properties: &mut Vec<Form>,
    facts: &mut Vec<Form>,
) -> Result<Known, Memory>
    requires level { level < length dev.now.levels }
    requires properties { properties.old.items ≡ properties_of dev.now level }
    requires facts { facts.old.items ≡ facts_of dev.now level }
    ensures known { IfOk result (λ known. IsKnownAt dev.now level known) }
    ensures properties { OnOk result (properties.new.items ≡ properties_of dev.now (suc level)) }
    ensures facts { OnOk result (facts.new.items ≡ facts_of dev.now (suc level)) }
{
    let stated = dev.level(level);
    let above = Form::copy_all(properties, alloc)?;
    add_conjuncts(alloc, &stated.properties, properties)?;
    let begins = begins(alloc, dev, level, properties)?;
    let before = followed_by(alloc, &begins, facts)?;
    add_joining(alloc, stated, facts)?;
    let joined = followed_by(alloc, &begins, facts)?;
    add_all_conjuncts(alloc, &stated.assertions, facts)?;
    let all = followed_by(alloc, &begins, facts)?;
    Ok(Known {
        properties: above,
        begins,
        before,
        joined,
        all,
    })
}

// The properties and, at an implementation, the sets' sizes and the constants' values.
fn begins(
    alloc: Global,
    dev: &FlatDevelopment<'_>,
    level: usize,
    properties: &[Form],
) -> Result<Vec<Form>, Memory>
    requires { level < length dev.now.levels }
    ensures { IfOk result (λ hyps. hyps.items ≡ properties.now ++ values_at dev.now level) }
{
    dev.facts();
    let written = dev.written;
    let mut hyps = Form::copy_all(properties, alloc)?;
    add_values(
        alloc,
        &written.sets,
        &written.values,
        dev.level(level),
        &mut hyps,
    )?;
    Ok(hyps)
}

// The formulas, and others after them.
fn followed_by(alloc: Global, forms: &[Form], others: &[Form]) -> Result<Vec<Form>, Memory>
    ensures { IfOk result (λ list. list.items ≡ forms.now ++ others.now) }
{
    let mut list = Form::copy_all(forms, alloc)?;
    for other in others {
        list.push(other.copy(alloc)?)?;
    }
    Ok(list)
}

/// Under what the obligation of a clause is to be shown.
pub(crate) fn supposed(
    alloc: Global,
    dev: &FlatDevelopment<'_>,
    level: usize,
    known: &Known,
    clause: Clause,
) -> Result<Vec<Form>, Memory>
    requires level { level < length dev.now.levels }
    requires known { IsKnownAt dev.now level known.now }
    ensures { IfOk result (λ hyps. hyps.items ≡ hypotheses_of dev.now level clause) }
{
    match clause {
        Clause::PropertiesDefined => Form::copy_all(&known.properties, alloc),
        Clause::ValuesMeet => sizes(alloc, dev),
        Clause::InvariantDefined => Form::copy_all(&known.before, alloc),
        Clause::AssertionsDefined => Form::copy_all(&known.joined, alloc),
        Clause::AssertionsHold => Form::copy_all(&known.joined, alloc),
        Clause::Initialisation => Form::copy_all(&known.begins, alloc),
        Clause::InitialisationDefined => Form::copy_all(&known.begins, alloc),
        Clause::Operation(operation) => operation_hypotheses(alloc, dev, level, known, operation),
        Clause::OperationDefined(operation) => {
            body_hypotheses(alloc, dev, level, known, operation)
        }
    }
}

// Of an operation's main obligation: at the machine with its own precondition.
fn operation_hypotheses(
    alloc: Global,
    dev: &FlatDevelopment<'_>,
    level: usize,
    known: &Known,
    operation: usize,
) -> Result<Vec<Form>, Memory>
    requires level { level < length dev.now.levels }
    requires known { IsKnownAt dev.now level known.now }
    ensures { IfOk result (λ hyps. hyps.items ≡ operation_hypotheses dev.now level operation) }
{
    if level == 0 {
        hypotheses_under(alloc, dev, 0, known, 1, operation)
    } else {
        body_hypotheses(alloc, dev, level, known, operation)
    }
}

// Of an operation at one level, and of what its body meets.
fn body_hypotheses(
    alloc: Global,
    dev: &FlatDevelopment<'_>,
    level: usize,
    known: &Known,
    operation: usize,
) -> Result<Vec<Form>, Memory>
    requires level { level < length dev.now.levels }
    requires known { IsKnownAt dev.now level known.now }
    ensures { IfOk result (λ hyps. hyps.items ≡ body_hypotheses dev.now level operation) }
{
    hypotheses_under(alloc, dev, level, known, level, operation)
}

// Of an operation at one level, under the preconditions of the first levels, as many as `conditions`.
fn hypotheses_under(
    alloc: Global,
    dev: &FlatDevelopment<'_>,
    level: usize,
    known: &Known,
    conditions: usize,
    operation: usize,
) -> Result<Vec<Form>, Memory>
    requires level { level < length dev.now.levels }
    requires known { IsKnownAt dev.now level known.now }
    requires conditions { conditions ≤ length dev.now.levels }
    ensures { IfOk result (λ hyps. hyps.items ≡ init_hypotheses dev.now level ++ facts_of dev.now (suc level)
        ++ conditions_of dev.now conditions operation ++ input_ranges dev.now level operation) }
{
    let mut hyps = Form::copy_all(&known.all, alloc)?;
    add_conditions(alloc, &dev.levels[..conditions], operation, &mut hyps)?;
    add_ranges(alloc, dev, dev.level(level), operation, &mut hyps)?;
    Ok(hyps)
}

// The sizes of the deferred sets.
fn sizes(alloc: Global, dev: &FlatDevelopment<'_>) -> Result<Vec<Form>, Memory>
    ensures { IfOk result (λ hyps. hyps.items ≡ size_equations dev.now) }
{
    dev.facts();
    let written = dev.written;
    let mut hyps = Vec::new(alloc);
    add_sizes(alloc, &written.sets, &mut hyps)?;
    Ok(hyps)
}

// Adds the sets' sizes and the constants' values, at an implementation.
fn add_values(
    alloc: Global,
    sets: &[EnumSet],
    values: &[(u32, Form)],
    level: &Level,
    hyps: &mut Vec<Form>,
) -> Result<(), Memory>
    requires few { length sets.now ≤ 2 ^ 32 }
    requires small { All (λ p. formula_size p.1 ≡ 1) values.now }
    ensures { OnOk result (hyps.new.items ≡ hyps.old.items
        ++ cond (is_implementation level.now) (size_equations_from 0 sets.now ++ map value_equation values.now) []) }
{
    if level.kind != Kind::Implementation {
        return Ok(());
    }
    add_sizes(alloc, sets, hyps)?;
    add_value_equations(alloc, values, hyps)
}

// Adds the size of each deferred set that has one.
#[tactic(auto, using(crate::proofs::SizeEquations::one_more))]
fn add_sizes(alloc: Global, sets: &[EnumSet], hyps: &mut Vec<Form>) -> Result<(), Memory>
    requires { length sets.now ≤ 2 ^ 32 }
    ensures { OnOk result (hyps.new.items ≡ hyps.old.items ++ size_equations_from 0 sets.now) }
{
    for (number, set) in sets.iter().enumerate() {
        add_size(alloc, number as u32, set, hyps)?;
    }
    Ok(())
}

// Adds card(S) = n, where the set is deferred and has a size.
#[tactic(auto, using(crate::proofs::SizeEquations::of_one))]
fn add_size(alloc: Global, number: u32, set: &EnumSet, hyps: &mut Vec<Form>) -> Result<(), Memory>
    ensures { OnOk result (hyps.new.items ≡ hyps.old.items ++ size_equations_of number set.now.elements set.now.size) }
{
    if !set.elements.is_empty() || set.size == 0 {
        return Ok(());
    }
    let name = Form::make(alloc, Part::Name(Domain::Enum(number)))?;
    let count = Form::make(alloc, Part::Un(UnOp::Card, name))?;
    let size = Form::make(alloc, Part::Int(i128::from(set.size)))?;
    hyps.push(Form::make(alloc, Part::Bin(BinOp::Eq, count, size))?)?;
    Ok(())
}

// Adds that each constant has its value.
fn add_value_equations(
    alloc: Global,
    values: &[(u32, Form)],
    hyps: &mut Vec<Form>,
) -> Result<(), Memory>
    requires { All (λ p. formula_size p.1 ≡ 1) values.now }
    ensures { OnOk result (hyps.new.items ≡ hyps.old.items ++ map value_equation values.now) }
{
    for (constant, value) in values {
        hyps.push(value_equation(alloc, *constant, value)?)?;
    }
    Ok(())
}

// constant = value
fn value_equation(alloc: Global, constant: u32, value: &Form) -> Result<Form, Memory>
    requires { formula_size value.now ≡ 1 }
    ensures { IfOk result (λ f. f ≡ value_equation (constant, value.now)) }
{
    let constant = Form::make(alloc, Part::Var(constant))?;
    Form::make(alloc, Part::Bin(BinOp::Eq, constant, value.copy(alloc)?))
}

// Adds the parts of the formulas.
fn add_all_conjuncts(alloc: Global, forms: &[Form], hyps: &mut Vec<Form>) -> Result<(), Memory>
    ensures { OnOk result (hyps.new.items ≡ hyps.old.items ++ flat_map conjuncts forms.now) }
{
    for form in forms {
        add_conjuncts(alloc, form, hyps)?;
    }
    Ok(())
}

// Adds a level's invariant and links.
fn add_joining(alloc: Global, level: &Level, hyps: &mut Vec<Form>) -> Result<(), Memory>
    ensures { OnOk result (hyps.new.items ≡ hyps.old.items ++ joining level.now) }
{
    add_conjuncts(alloc, &level.invariant, hyps)?;
    add_links(alloc, &level.links, hyps)
}

/// Adds that the variables of each pair are equal.
pub(crate) fn add_links(
    alloc: Global,
    links: &[(u32, u32)],
    hyps: &mut Vec<Form>,
) -> Result<(), Memory>
    ensures { OnOk result (hyps.new.items ≡ hyps.old.items ++ map equation links.now) }
{
    for (below, above) in links {
        let below = Form::make(alloc, Part::Var(*below))?;
        let above = Form::make(alloc, Part::Var(*above))?;
        hyps.push(Form::make(alloc, Part::Bin(BinOp::Eq, below, above))?)?;
    }
    Ok(())
}

// Adds the outermost preconditions of an operation at the levels.
fn add_conditions(
    alloc: Global,
    levels: &[Level],
    operation: usize,
    hyps: &mut Vec<Form>,
) -> Result<(), Memory>
    ensures { OnOk result (hyps.new.items ≡ hyps.old.items ++ flat_map
        (λ l. conjuncts (body_of l operation).condition) levels.now) }
{
    for level in levels {
        add_condition(alloc, level, operation, hyps)?;
    }
    Ok(())
}

fn add_condition(
    alloc: Global,
    level: &Level,
    operation: usize,
    hyps: &mut Vec<Form>,
) -> Result<(), Memory>
    ensures { OnOk result (hyps.new.items ≡ hyps.old.items ++ conjuncts (body_of level.now operation).condition) }
{
    match level.bodies.get(operation) {
        Some(body) => add_conjuncts(alloc, &body.pre, hyps),
        None => Ok(()),
    }
}

// Adds that the whole numbers among an operation's inputs are numbers of the machine, at an implementation.
fn add_ranges(
    alloc: Global,
    dev: &FlatDevelopment<'_>,
    level: &Level,
    operation: usize,
    hyps: &mut Vec<Form>,
) -> Result<(), Memory>
    ensures { OnOk result (hyps.new.items ≡ hyps.old.items
        ++ cond (is_implementation level.now) (map (in_machine_range dev.now) (filter
        (λ x. is_number (variable_type dev.now.table x)) (inputs_of dev.now operation))) []) }
{
    match level.kind {
        Kind::Implementation => add_input_ranges(alloc, dev, operation, hyps),
        Kind::Machine | Kind::Refinement => Ok(()),
    }
}

// Adds them at every level.
fn add_input_ranges(
    alloc: Global,
    dev: &FlatDevelopment<'_>,
    operation: usize,
    hyps: &mut Vec<Form>,
) -> Result<(), Memory>
    ensures { OnOk result (hyps.new.items ≡ hyps.old.items
        ++ map (in_machine_range dev.now) (filter
        (λ x. is_number (variable_type dev.now.table x)) (inputs_of dev.now operation))) }
{
    let written = dev.written;
    match written.heads.get(operation) {
        Some(head) => add_ranges_of(alloc, dev, &head.inputs, hyps),
        None => Ok(()),
    }
}

fn add_ranges_of(
    alloc: Global,
    dev: &FlatDevelopment<'_>,
    inputs: &[u32],
    hyps: &mut Vec<Form>,
) -> Result<(), Memory>
    ensures { OnOk result (hyps.new.items ≡ hyps.old.items
        ++ map (in_machine_range dev.now) (filter (λ x. is_number (variable_type dev.now.table x)) inputs.now)) }
{
    for input in inputs {
        if is_number(&dev.table, *input) {
            hyps.push(in_machine_range(alloc, dev, *input)?)?;
        }
    }
    Ok(())
}

// Whether the variable is a whole number.
fn is_number(table: &VarTable, variable: u32) -> bool
    ensures { result ≡ is_number (variable_type table.now variable) }
{
    match table.ty(variable) {
        Some(ty) => match ty.view() {
            TyView::Int => true,
            _ => false,
        },
        None => false,
    }
}

// variable : MININT .. MAXINT
fn in_machine_range(alloc: Global, dev: &FlatDevelopment<'_>, variable: u32) -> Result<Form, Memory>
    ensures { IfOk result (λ f. f ≡ in_machine_range dev.now variable) }
{
    let most = dev.int_max() as i128;
    let low = Form::make(alloc, Part::Int(-most))?;
    let high = Form::make(alloc, Part::Int(most))?;
    let range = Form::make(alloc, Part::Bin(BinOp::Range, low, high))?;
    let variable = Form::make(alloc, Part::Var(variable))?;
    Form::make(alloc, Part::Bin(BinOp::In, variable, range))
}
