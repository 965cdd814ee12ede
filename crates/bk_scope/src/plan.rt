// What numbers the names of a component have, and what is in scope where.

ghost use Rattle.std.specs.Prelude.{◌≡◌, ◌+◌, ◌++◌, ◌∷◌, [], take, ◌≤◌, length, map, cond, IfOk, OnOk};
ghost use Rattle.bk_form.specs.Role.{bind};
ghost use Rattle.bk_raw.specs.Meaning.Binders.{is_text};
ghost use Rattle.bk_elab_terms.specs.Visible.{visible_names, meaning_of};
ghost use Rattle.bk_statics.specs.Components.{initialisation};
ghost use Rattle.bk_statics.specs.Components as written;
ghost use Rattle.bk_statics.specs.Plan as meant;
ghost use Rattle.bk_scope.specs.Shown.{above_shown, component_shown, variable_shown, variables_shown, declared_shown, headed_shown};
ghost use Rattle.bk_scope.specs.Shown.{is_blank, IsCounted, placed_shown, plan_shown, refs, no_operation_of, IsPlanOf};
ghost use Rattle.bk_statics.specs.Typings.{numbered, or_else, variable_in};

use crate::above::{Above, push_written_sets, variable_named};
use crate::binders::binder_count;
use crate::component::{Blank, Component, WrittenVariable};
use crate::number::ahead;
use crate::sight::{bound, bound_as, joined, variable_of};
use bk_dev::OpHead;
use bk_elab_terms::{Standing, Visible};
use bk_io::{Memory, Text};
use bk_raw::{RawName, RawOperation};
use std::alloc::Global;

/// A variable of the level: its name, the variable of that name at the level above, and whether it is concrete.
#[derive(Clone, Copy)]
pub struct Declared<'a> {
    pub text: &'a [u8],
    pub higher: Option<u32>,
    pub is_concrete: bool,
}

/// An operation with its inputs by their names, the machine's outputs, and the first numbers of its outputs and of what
/// its body binds.
#[derive(Drop)]
pub struct Placed<'a> {
    pub operation: &'a RawOperation,
    pub inputs: Vec<Visible<'a>>,
    pub machine_outputs: Vec<Visible<'a>>,
    pub outputs_at: u32,
    pub binders_at: u32,
}

/// The numbers and names of a component.
#[derive(Drop)]
pub struct Plan<'a> {
    pub level: u32,
    pub constants_at: u32,
    pub variables_at: u32,
    pub inputs_at: u32,
    pub outputs_at: u32,
    /// The first number of what is bound; the initialisation's comes first.
    pub binders_at: u32,
    /// Sets, elements and constants of this level and those above.
    pub globals: Vec<Visible<'a>>,
    /// The variables of the level above.
    pub upper: Vec<Visible<'a>>,
    /// The level's own.
    pub variables: Vec<Declared<'a>>,
    /// The operations in the machine's order.
    pub operations: Vec<Placed<'a>>,
}

impl<'a> Plan<'a> {
    // The component's plan below these levels.
    pub fn of(
        alloc: Global,
        above: Above<'a>,
        component: &Component<'a>,
        blank: &'a Blank,
    ) -> Result<Plan<'a>, Memory>
        requires { is_blank component.now.at blank.now }
        ensures { IfOk result (λ p. IsPlanOf p (above_shown above.entry) (component_shown component.now)) }
    {
        let Ok(level) = u32::try_from(above.levels().len()) else {
            return Err(Memory);
        };
        let upper = above.upper(alloc)?;
        let variables = all_declared(alloc, above, &upper, &component.variables)?;
        let counts = Counts::of(above, component, blank, variables.len())?;
        let globals = plan_globals(alloc, above, component, counts.constants_at)?;
        let headed = headed_operations(alloc, above, component, blank, counts)?;
        let started = binder_count(component.start(blank))?;
        let binders_at = ahead(counts.outputs_at, output_count(&headed)?)?;
        let operations = placed_operations(
            counts.outputs_at,
            ahead(binders_at, started)?,
            headed,
            alloc,
        )?;
        Ok(Plan {
            level,
            constants_at: counts.constants_at,
            variables_at: counts.variables_at,
            inputs_at: counts.inputs_at,
            outputs_at: counts.outputs_at,
            binders_at,
            globals,
            upper,
            variables,
            operations,
        })
    }

    // The level's variables by their names.
    fn level_names(&self, alloc: Global) -> Result<Vec<Visible<'a>>, Memory>
        ensures { IfOk result (λ names. visible_names names.items ≡ meant.level_names (plan_shown self.now)) }
    {
        let mut names = Vec::new(alloc);
        for (index, variable) in self.variables.iter().enumerate() {
            let number = ahead(self.variables_at, index)?;
            names.push(variable_named(variable.text, number))?;
        }
        Ok(names)
    }

    // What the initialisation sees: sets, elements, constants and the level's variables.
    pub fn scope(&self, alloc: Global) -> Result<Vec<Visible<'a>>, Memory>
        ensures { IfOk result (λ names. visible_names names.items ≡ meant.scope (plan_shown self.now)) }
    {
        let mut names = self.level_names(alloc)?;
        names.extend_from_slice(&self.globals)?;
        Ok(names)
    }

    // What the invariant and the assertions see: the variables of the level above too. An own name wins.
    pub fn joined(&self, alloc: Global) -> Result<Vec<Visible<'a>>, Memory>
        ensures { IfOk result (λ names. visible_names names.items ≡ meant.invariant_scope (plan_shown self.now)) }
    {
        let mut names = self.level_names(alloc)?;
        names.extend_from_slice(&self.upper)?;
        names.extend_from_slice(&self.globals)?;
        Ok(names)
    }

    // What types the level's new variables: the names of the level above, and the globals.
    pub fn upper_globals(&self, alloc: Global) -> Result<Vec<Visible<'a>>, Memory>
        ensures { IfOk result (λ names. visible_names names.items ≡
            visible_names self.now.upper.items ++ visible_names self.now.globals.items) }
    {
        joined(alloc, &self.upper, &self.globals)
    }

    // What a body sees: its inputs and outputs too.
    pub fn body_scope(
        &self,
        alloc: Global,
        operation: &Placed<'a>,
    ) -> Result<Vec<Visible<'a>>, Memory>
        ensures { IfOk result (λ names. visible_names names.items ≡
            meant.body_scope (plan_shown self.now) (placed_shown operation.now)) }
    {
        let around = self.scope(alloc)?;
        let inside = bound_as(alloc, &operation.inputs, &around)?;
        let written = operation.operation;
        bound(alloc, operation.outputs_at, &written.outputs, &inside)
    }

    // Where the conjuncts are read that type an operation's inputs.
    pub fn input_scope(
        &self,
        alloc: Global,
        operation: &Placed<'a>,
    ) -> Result<Vec<Visible<'a>>, Memory>
        ensures { IfOk result (λ names. visible_names names.items ≡
            meant.input_scope (plan_shown self.now) (placed_shown operation.now)) }
    {
        let around = self.scope(alloc)?;
        let written = operation.operation;
        bound(alloc, operation.outputs_at, &written.outputs, &around)
    }
}

// ---- first numbers

/// The first numbers of a component's constants, variables, inputs and outputs, and a number after all that it has.
#[derive(Clone, Copy)]
pub struct Counts {
    pub constants_at: u32,
    pub variables_at: u32,
    pub inputs_at: u32,
    pub outputs_at: u32,
    pub far: u32,
}

impl Counts {
    // Those of the component, of whose variables there are so many.
    fn of(
        above: Above<'_>,
        component: &Component<'_>,
        blank: &Blank,
        variables: usize,
    ) -> Result<Counts, Memory>
        requires { is_blank component.now.at blank.now }
        ensures { IfOk result (λ n. IsCounted n (above_shown above.entry) (component_shown component.now) variables) }
    {
        let constants_at = ahead(0, above.variables())?;
        let variables_at = ahead(constants_at, component.constants.len())?;
        let inputs_at = ahead(variables_at, variables)?;
        let outputs_at = ahead(inputs_at, inputs_written(component)?)?;
        let started = binder_count(component.start(blank))?;
        let operations = component.operations.as_slice();
        let named = sizes(above.heads(), operations, blank)?;
        let others = other_sizes(above.heads(), operations)?;
        let behind = ahead(ahead(outputs_at, started)?, named)?;
        Ok(Counts {
            constants_at,
            variables_at,
            inputs_at,
            outputs_at,
            far: ahead(behind, others)?,
        })
    }
}

// How many inputs the operations of a machine have; those of other components are the machine's.
fn inputs_written(component: &Component<'_>) -> Result<usize, Memory>
    ensures { IfOk result (λ n. n ≡ cond (written.is_machine (component_shown component.now).kind)
        (meant.input_count (component_shown component.now).operations) 0) }
{
    if !component.is_machine() {
        return Ok(0);
    }
    let mut count: usize = 0;
    for operation in &component.operations {
        count = sum(count, operation.inputs.len())?;
    }
    Ok(count)
}

// Both together.
fn sum(left: usize, right: usize) -> Result<usize, Memory>
    ensures { IfOk result (λ n. n ≡ left + right) }
{
    match left.checked_add(right) {
        Some(sum) => Ok(sum),
        None => Err(Memory),
    }
}

// How many outputs and binders an operation has.
fn size_of(operation: &RawOperation) -> Result<usize, Memory>
    ensures { IfOk result (λ n. n ≡ meant.size_of operation.now) }
{
    sum(operation.outputs.len(), binder_count(&operation.body)?)
}

// How many the operations of these headers have.
fn sizes(heads: &[OpHead], operations: &[&RawOperation], blank: &Blank) -> Result<usize, Memory>
    requires { no_operation_of blank.now }
    ensures { IfOk result (λ n. n ≡ meant.sizes heads.now (refs operations.now)) }
{
    let mut count: usize = 0;
    for head in heads {
        let operation = operation_named(head.name.as_bytes(), operations, blank);
        count = sum(count, size_of(operation)?)?;
    }
    Ok(count)
}

// How many the operations have that no header has.
fn other_sizes(heads: &[OpHead], operations: &[&RawOperation]) -> Result<usize, Memory>
    ensures { IfOk result (λ n. n ≡ meant.other_sizes heads.now (refs operations.now)) }
{
    let mut count: usize = 0;
    for operation in operations {
        if !is_headed(heads, operation.name.text.as_bytes()) {
            count = sum(count, size_of(operation)?)?;
        }
    }
    Ok(count)
}

// How many outputs these operations have.
fn output_count(operations: &[Headed<'_>]) -> Result<usize, Memory>
    ensures { IfOk result (λ n. n ≡ meant.output_count (map headed_shown operations.now)) }
{
    let mut count: usize = 0;
    for headed in operations {
        let operation = headed.operation;
        count = sum(count, operation.outputs.len())?;
    }
    Ok(count)
}

// ---- variables

// All variables of the level: concrete ones from above, and then its own.
fn all_declared<'a>(
    alloc: Global,
    above: Above<'a>,
    upper: &[Visible<'a>],
    variables: &[WrittenVariable<'a>],
) -> Result<Vec<Declared<'a>>, Memory>
    ensures { IfOk result (λ found. map declared_shown found.items ≡
        meant.all_declared (above_shown above.entry) (visible_names upper.now) (variables_shown variables.now)) }
{
    let mut found = carried(alloc, above, upper)?;
    let before = found.len();
    for variable in variables {
        push_own(&mut found, before, upper, *variable)?;
    }
    Ok(found)
}

// A variable that the component declares goes after the others, unless one of the first so many has its name.
fn push_own<'a>(
    found: &mut Vec<Declared<'a>>,
    before: usize,
    upper: &[Visible<'_>],
    variable: WrittenVariable<'a>,
) -> Result<(), Memory>
    requires { before ≤ length found.old.items }
    ensures { OnOk result (map declared_shown found.new.items ≡ map declared_shown found.old.items ++
        meant.own (meant.declared_texts (map declared_shown (take before found.old.items))) (visible_names upper.now)
        (variable_shown variable.entry ∷ [])) }
{
    if is_carried(found, before, variable.name.text.as_bytes()) {
        return Ok(());
    }
    found.push(own(upper, variable))?;
    Ok(())
}

// The concrete ones among the variables above, which stand at the level as if they were declared there.
pub fn carried<'a>(
    alloc: Global,
    above: Above<'a>,
    upper: &[Visible<'a>],
) -> Result<Vec<Declared<'a>>, Memory>
    ensures { IfOk result (λ found. map declared_shown found.items ≡ meant.carried (above_shown above.entry) (visible_names upper.now)) }
{
    let mut found = Vec::new(alloc);
    for name in upper {
        let number = number_in(*name);
        if above.is_concrete(number) {
            found.push(Declared {
                text: name.text,
                higher: Some(number),
                is_concrete: true,
            })?;
        }
    }
    Ok(found)
}

// The number of a variable's name.
fn number_in(name: Visible<'_>) -> u32
    ensures { result ≡ or_else 0 (variable_in (meaning_of name.entry.meaning)) }
{
    match name.meaning {
        Standing::Variable(number) => number,
        _ => 0,
    }
}

// Whether one of the first so many variables has the name.
pub fn is_carried(variables: &[Declared<'_>], count: usize, text: &[u8]) -> bool
    requires { count ≤ length variables.now }
    ensures { result ≡ is_text (meant.declared_texts (map declared_shown (take count variables.now))) text.now }
{
    variables[..count]
        .iter()
        .any(|variable| variable.text == text)
}

// A variable that the component declares.
fn own<'a>(upper: &[Visible<'_>], variable: WrittenVariable<'a>) -> Declared<'a>
    ensures { declared_shown result ≡ meant.own_one (visible_names upper.now) (variable_shown variable.entry) }
{
    let text = variable.name.text.as_bytes();
    Declared {
        text,
        higher: variable_of(upper, text),
        is_concrete: variable.is_concrete,
    }
}

// The variables whose types are found here: those that do not stand above.
pub fn fresh<'a>(
    alloc: Global,
    upper: &[Visible<'_>],
    variables: &[WrittenVariable<'a>],
) -> Result<Vec<&'a RawName>, Memory>
    ensures { IfOk result (λ found. refs found.items ≡ meant.fresh (visible_names upper.now) (variables_shown variables.now)) }
{
    let mut found = Vec::new(alloc);
    for variable in variables {
        if variable_of(upper, variable.name.text.as_bytes()).is_none() {
            found.push(variable.name)?;
        }
    }
    Ok(found)
}

// Sets, elements and constants of the component, and of the levels above. Its first constant has this number.
fn plan_globals<'a>(
    alloc: Global,
    above: Above<'a>,
    component: &Component<'a>,
    constants_at: u32,
) -> Result<Vec<Visible<'a>>, Memory>
    requires { constants_at ≡ length (above_shown above).table.variables }
    ensures { IfOk result (λ names. visible_names names.items ≡
        meant.plan_globals (above_shown above.entry) (component_shown component.now)) }
{
    let mut around = Vec::new(alloc);
    push_written_sets(&mut around, ahead(0, above.sets())?, &component.sets)?;
    let higher = above.globals(alloc)?;
    around.extend_from_slice(&higher)?;
    bound_refs(alloc, constants_at, &component.constants, &around)
}

// ---- operations

/// An operation with its inputs by their names, and the machine's outputs.
#[derive(Drop)]
pub struct Headed<'a> {
    pub operation: &'a RawOperation,
    pub inputs: Vec<Visible<'a>>,
    pub machine_outputs: Vec<Visible<'a>>,
}

// The operations in the machine's order.
fn headed_operations<'a>(
    alloc: Global,
    above: Above<'a>,
    component: &Component<'a>,
    blank: &'a Blank,
    counts: Counts,
) -> Result<Vec<Headed<'a>>, Memory>
    requires { is_blank component.now.at blank.now }
    ensures { IfOk result (λ found. map headed_shown found.items ≡
        meant.plan_headed (above_shown above.entry) (component_shown component.now) counts.inputs_at counts.far) }
{
    let operations = component.operations.as_slice();
    if component.is_machine() {
        return machine_headed(alloc, counts.inputs_at, operations);
    }
    let mut found = lower_headed(alloc, above, counts.far, operations, blank)?;
    push_others(alloc, above.heads(), counts.far, operations, &mut found)?;
    Ok(found)
}

// Those of a machine, whose inputs have the numbers from this one on.
fn machine_headed<'a>(
    alloc: Global,
    first: u32,
    operations: &[&'a RawOperation],
) -> Result<Vec<Headed<'a>>, Memory>
    ensures { IfOk result (λ found. map headed_shown found.items ≡ meant.machine_headed first (refs operations.now)) }
{
    let mut found = Vec::new(alloc);
    let mut next = first;
    for operation in operations {
        found.push(Headed {
            operation,
            inputs: numbered(alloc, next, &operation.inputs)?,
            machine_outputs: Vec::new(alloc),
        })?;
        next = ahead(next, operation.inputs.len())?;
    }
    Ok(found)
}

// The names have the numbers from this one on.
fn numbered<'a>(alloc: Global, first: u32, names: &'a [RawName]) -> Result<Vec<Visible<'a>>, Memory>
    ensures { IfOk result (λ found. visible_names found.items ≡ numbered first names.now) }
{
    let mut found = Vec::new(alloc);
    for (index, name) in names.iter().enumerate() {
        let number = ahead(first, index)?;
        found.push(variable_named(name.text.as_bytes(), number))?;
    }
    Ok(found)
}

// Each header with the operation of its name.
fn lower_headed<'a>(
    alloc: Global,
    above: Above<'a>,
    far: u32,
    operations: &[&'a RawOperation],
    blank: &'a Blank,
) -> Result<Vec<Headed<'a>>, Memory>
    requires { no_operation_of blank.now }
    ensures { IfOk result (λ found. map headed_shown found.items ≡
        meant.lower_headed far (above_shown above.entry) 0 (above_shown above.entry).heads (refs operations.now)) }
{
    let mut found = Vec::new(alloc);
    for (index, head) in above.heads().iter().enumerate() {
        let operation = operation_named(head.name.as_bytes(), operations, blank);
        let inputs = above.inputs(alloc, &head.inputs)?;
        found.push(Headed {
            operation,
            inputs: inputs_by(alloc, far, &inputs, &operation.inputs)?,
            machine_outputs: above.outputs(alloc, index)?,
        })?;
    }
    Ok(found)
}

// The operations that the machine lacks go after the others.
fn push_others<'a>(
    alloc: Global,
    heads: &[OpHead],
    far: u32,
    operations: &[&'a RawOperation],
    found: &mut Vec<Headed<'a>>,
) -> Result<(), Memory>
    ensures { OnOk result (map headed_shown found.new.items ≡
        map headed_shown found.old.items ++ meant.other_headed far heads.now (refs operations.now)) }
{
    for operation in operations {
        if !is_headed(heads, operation.name.text.as_bytes()) {
            found.push(Headed {
                operation,
                inputs: inputs_by(alloc, far, &[], &operation.inputs)?,
                machine_outputs: Vec::new(alloc),
            })?;
        }
    }
    Ok(())
}

// An input below is the machine's input of its name; one that the machine's header lacks has a number after all others,
// and so no type.
fn inputs_by<'a>(
    alloc: Global,
    far: u32,
    machine: &[Visible<'_>],
    inputs: &'a [RawName],
) -> Result<Vec<Visible<'a>>, Memory>
    ensures { IfOk result (λ found. visible_names found.items ≡ meant.inputs_by far (visible_names machine.now) inputs.now) }
{
    let mut found = Vec::new(alloc);
    for input in inputs {
        let text = input.text.as_bytes();
        let number = variable_of(machine, text).unwrap_or(far);
        found.push(variable_named(text, number))?;
    }
    Ok(found)
}

// The operation of a name, or one that does nothing.
fn operation_named<'a>(
    text: &[u8],
    operations: &[&'a RawOperation],
    blank: &'a Blank,
) -> &'a RawOperation
    requires { no_operation_of blank.now }
    ensures { result.now ≡ meant.operation_named text.now (refs operations.now) }
{
    for operation in operations {
        if operation.name.text.as_bytes() == text {
            return operation;
        }
    }
    &blank.operation
}

// Whether one of the headers has the name.
pub fn is_headed(heads: &[OpHead], text: &[u8]) -> bool
    ensures { result ≡ meant.is_headed heads.now text.now }
{
    heads.iter().any(|head| head.name.as_bytes() == text)
}

// The operations with the numbers of their outputs, from one on, and of what their bodies bind, from another on.
fn placed_operations<'a>(
    outputs_at: u32,
    binders_at: u32,
    headed: Vec<Headed<'a>>,
    alloc: Global,
) -> Result<Vec<Placed<'a>>, Memory>
    ensures { IfOk result (λ found. map placed_shown found.items ≡ meant.placed outputs_at binders_at (map headed_shown headed.entry.items)) }
{
    let mut found = Vec::new(alloc);
    let (mut outputs, mut binders) = (outputs_at, binders_at);
    for one in headed {
        let operation = one.operation;
        found.push(Placed {
            operation,
            inputs: one.inputs,
            machine_outputs: one.machine_outputs,
            outputs_at: outputs,
            binders_at: binders,
        })?;
        outputs = ahead(outputs, operation.outputs.len())?;
        binders = ahead(binders, binder_count(&operation.body)?)?;
    }
    Ok(found)
}

// Constants go in front of the names around; they have the numbers from this one on.
fn bound_refs<'a>(
    alloc: Global,
    first: u32,
    bound: &[&'a RawName],
    around: &[Visible<'a>],
) -> Result<Vec<Visible<'a>>, Memory>
    ensures { IfOk result (λ names. visible_names names.items ≡
        bind (numbered first (refs bound.now)) (visible_names around.now)) }
{
    let mut names = Vec::new(alloc);
    let mut index = bound.len();
    while index > 0 {
        index -= 1;
        let number = ahead(first, index)?;
        names.push(variable_named(bound[index].text.as_bytes(), number))?;
    }
    names.extend_from_slice(around)?;
    Ok(names)
}
