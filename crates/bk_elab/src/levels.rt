//! A component as one more level of a development.

ghost use Rattle.std.specs.Prelude.{◌≡◌, ◌<◌, ◌≤◌, ◌+◌, ◌^◌, ◌∷◌, [], All, IsTrue, true, length, map, IfOk, IfErr, OnOk};
ghost use Rattle.bk_form.specs.Table.{lists_type, IsCounted};
ghost use Rattle.bk_dev.specs.B0.{IsB0Development};
ghost use Rattle.bk_dev.specs.Development.{is_implementing};
ghost use Rattle.bk_dev.specs.Facts.{IsDevelopment, HomesAreThere};
ghost use Rattle.bk_raw.specs.Errors.Blame.{blame};
ghost use Rattle.bk_elab_terms.specs.Shown.{told};
ghost use Rattle.bk_elab_terms.specs.Visible.{typing_of};
ghost use Rattle.bk_raw.specs.Meaning.Binders.{or_bool};
ghost use Rattle.bk_raw.specs.declared.component.ComponentKind.TheVariants.{Implementation};
ghost use Rattle.bk_raw.specs.Errors.Limits.{IsLowComponent};
ghost use Rattle.bk_statics.specs.Above.{above_of, no_development};
ghost use Rattle.bk_elab.specs.Answered.{SaysOfComponent, IsMadeBy, IsAddedBy, development_of, development_below};
ghost use Rattle.bk_elab.specs.Answered.{with_level, with_sets, with_variables, variables_added};
ghost use Rattle.bk_statics.specs.Binders.{texts};
ghost use Rattle.bk_statics.specs.Components.{component_of, is_machine};
ghost use Rattle.bk_statics.specs.DeclaredNames as names;
ghost use Rattle.bk_statics.specs.Executable.{executable_faults};
ghost use Rattle.bk_statics.specs.LevelOf.{entries_from, types_at};
ghost use Rattle.bk_statics.specs.Plan as planned;
ghost use Rattle.bk_statics.specs.Plan.{entries_of, operations_of};
ghost use Rattle.bk_scope.specs.Shown.{above_shown, component_shown, is_blank, placed_shown, plan_shown, refs, IsPlanOf};
ghost use Rattle.bk_statics.specs.Verdict as meant;
ghost use Rattle.bk_statics.specs.VerdictLaws.{MayStandAbove, IsRangeBelow, HasRoom};

use crate::room::count_all;
use crate::static_fault::static_fault;
use bk_check_b0::arrays::array_domains;
use bk_check_b0::executable::executable_fault;
use bk_check_clauses::values::values_made;
use bk_dev::{Development, EnumSet, Home, Kind, Level, OpHead};
use bk_elab_level::made::{level_made, machine_heads, new_homes, new_texts};
use bk_elab_terms::{ElabFault, Fault, earlier};
use bk_form::{Form, Ty, VarTable};
use bk_infer::all_ways::all_ways;
use bk_infer::counting::declares_too_many;
use bk_infer::settled::settled;
use bk_io::{Memory, Text};
use bk_raw::{RawComponent, RawName, RawSet};
use bk_scope::above::Above;
use bk_scope::component::{Blank, Component};
use bk_scope::number::ahead;
use bk_scope::plan::Plan;
use bk_scope::way::Typing;
use std::alloc::Global;

/// The number of the limit of names.
const NAMES: u8 = 5;

/// The levels above with this component as one level more, or the first of its faults. `max` is MAXINT. A machine has
/// nothing above it, and may have any range; every other component stands below a development that ends in no
/// implementation, in the range of that. The limit of names is told before any fault. What is answered is a development,
/// below which the next component may stand, and with an implementation no higher than `GREATEST_TREE_HEIGHT` it is in B0;
/// what 32 bits do not number is `Memory`.
pub fn level(
    alloc: Global,
    max: i64,
    raw: &RawComponent,
    above: Option<Development>,
) -> Result<Development, ElabFault>
    requires above { MayStandAbove raw.now.kind above }
    requires range { IsRangeBelow max above }
    ensures level { IfOk result (λ dev. meant.verdict_of max above raw.now ≡ meant.accepted dev) }
    ensures fault { IfErr result (SaysOfComponent (meant.verdict_of max above raw.now)) }
    ensures development { IfOk result (λ dev. IsDevelopment dev) }
    ensures room { IfOk result (λ dev. HasRoom dev) }
    ensures executable { IfOk result (λ dev. raw.now.kind ≡ Implementation → IsLowComponent raw.now → IsB0Development dev) }
{
    let blank = Blank::at(alloc, raw.at);
    let component = Component::of(alloc, raw)?;
    if declares_too_many(&component) {
        return Err(ElabFault::Limit(NAMES));
    }
    let higher = Above {
        development: above.as_ref(),
    };
    let judged = part_of(alloc, max, higher, &component, &blank)?;
    if let Some(fault) = judged.fault {
        return Err(ElabFault::Fault {
            number: fault.kind.number(),
            place: fault.place,
        });
    }
    let made = counted(alloc, max, above, judged.added)?;
    Ok(made)
}

/// Whether a component declares more names than the limit of names allows. `level` tells so too; who reads several
/// components may ask it of all of them first.
pub fn passes_limit_of_names(alloc: Global, raw: &RawComponent) -> Result<bool, Memory>
    ensures { IfOk result (λ passes. passes ≡ names.declares_too_many (component_of raw.now)) }
{
    let component = Component::of(alloc, raw)?;
    Ok(declares_too_many(&component))
}

/// What a component adds to the levels above, and the first of its faults.
#[derive(Drop)]
pub struct Judged {
    pub added: Added,
    pub fault: Option<Fault>,
}

/// What a component adds to a development.
#[derive(Drop)]
pub struct Added {
    pub sets: Vec<EnumSet>,
    /// How its variables are written, and their types.
    pub variables: Vec<(Text, Ty)>,
    pub homes: Vec<Home>,
    /// Of a machine alone.
    pub heads: Vec<OpHead>,
    /// The level alone.
    pub own: Vec<Level>,
    pub values: Vec<(u32, Form)>,
}

/// A component with the levels above it.
#[derive(Clone, Copy)]
pub struct Given<'a> {
    pub above: Above<'a>,
    pub component: &'a Component<'a>,
}

// What the component adds to these levels, and the first of its faults.
fn part_of(
    alloc: Global,
    max: i64,
    above: Above<'_>,
    component: &Component<'_>,
    blank: &Blank,
) -> Result<Judged, Memory>
    requires blank { is_blank component.now.at blank.now }
    requires alone { is_machine component.now.kind ≡ true → above_shown above ≡ no_development }
    requires homes { HomesAreThere (above_shown above) }
    requires all_at_home { length (above_shown above).homes ≡ length (above_shown above).table.variables }
    ensures added { IfOk result (λ p. IsAddedBy max p.added (above_shown above.entry) (is_machine component.now.kind)
        (meant.level_below max (above_shown above.entry) (component_shown component.now))) }
    ensures fault { IfOk result (λ p. told p.fault ≡
        blame (meant.all_faults max (above_shown above.entry) (component_shown component.now))) }
{
    let given = Given { above, component };
    let part = part_given(alloc, max, given, blank)?;
    Ok(part)
}

// The same of what is given, with what stands where nothing is written.
fn part_given<'a>(
    alloc: Global,
    max: i64,
    given: Given<'a>,
    blank: &'a Blank,
) -> Result<Judged, Memory>
    requires blank { is_blank given.component.now.at blank.now }
    requires alone { is_machine given.component.now.kind ≡ true → above_shown given.above ≡ no_development }
    requires homes { HomesAreThere (above_shown given.above) }
    requires all_at_home { length (above_shown given.above).homes ≡ length (above_shown given.above).table.variables }
    ensures added { IfOk result (λ p. IsAddedBy max p.added (above_shown given.entry.above) (is_machine given.entry.component.now.kind)
        (meant.level_below max (above_shown given.entry.above) (component_shown given.entry.component.now))) }
    ensures fault { IfOk result (λ p. told p.fault ≡
        blame (meant.all_faults max (above_shown given.entry.above) (component_shown given.entry.component.now))) }
{
    let above = given.above;
    let component = given.component;
    let plan = Plan::of(alloc, above, component, blank)?;
    let ways = all_ways(alloc, &plan, component, blank)?;
    let known = above.types(alloc)?;
    let types = settled(alloc, max, known, &ways)?;
    let typing = Typing {
        alloc,
        max,
        types: &types,
    };
    let fault = static_fault(typing, above, component, &plan, blank)?;
    let added = added_by(typing, component, &plan, blank)?;
    let executed = executed_fault(typing, above, component, &plan, blank, &added)?;
    Ok(Judged {
        added,
        fault: earlier(fault, executed),
    })
}

// What the component adds.
fn added_by(
    typing: Typing<'_>,
    component: &Component<'_>,
    plan: &Plan<'_>,
    blank: &Blank,
) -> Result<Added, Memory>
    requires blank { is_blank component.now.at blank.now }
    requires operations { map placed_shown plan.now.operations.items ≡
        operations_of (plan_shown plan.now) (component_shown component.now) }
    ensures { IfOk result (λ a. IsMadeBy a typing.entry.max (typing_of typing.entry.types.now) (plan_shown plan.now) (component_shown component.now)) }
{
    let alloc = typing.alloc;
    let texts = new_texts(alloc, component, plan, blank)?;
    let homes = new_homes(alloc, component, plan, texts.len())?;
    let heads = match component.kind {
        Kind::Machine => machine_heads(alloc, plan.inputs_at, &component.operations)?,
        _ => Vec::new(alloc),
    };
    let mut own = Vec::new(alloc);
    own.push(level_made(typing, component, plan, blank)?)?;
    Ok(Added {
        sets: written_sets(alloc, &component.sets)?,
        variables: with_types(typing, plan.constants_at, texts)?,
        homes,
        heads,
        own,
        values: values_made(typing, &plan.globals, &component.values)?,
    })
}

// The first fault of what is not B0, where the component is an implementation.
fn executed_fault(
    typing: Typing<'_>,
    above: Above<'_>,
    component: &Component<'_>,
    plan: &Plan<'_>,
    blank: &Blank,
    added: &Added,
) -> Result<Option<Fault>, Memory>
    requires blank { is_blank component.now.at blank.now }
    requires planned { IsPlanOf plan.now (above_shown above) (component_shown component.now) }
    requires types { typing_of typing.types.now ≡ types_at typing.max (above_shown above) (component_shown component.now)
        (planned.plan (above_shown above) (component_shown component.now)) }
    requires made { IsMadeBy added.now typing.max (typing_of typing.types.now) (plan_shown plan.now) (component_shown component.now) }
    ensures { IfOk result (λ fault. told fault ≡
        blame (executable_faults typing.entry.max (above_shown above.entry) (component_shown component.now))) }
{
    if !is_implementing(component.kind) {
        return Ok(None);
    }
    let arrays = array_domains(typing, above, &added.own, &added.values)?;
    let fault = executable_fault(typing, &arrays, component, plan, blank)?;
    Ok(fault)
}

// Whether it is an implementation.
fn is_implementing(kind: Kind) -> bool
    ensures { result ≡ is_implementing kind }
{
    matches!(kind, Kind::Implementation)
}

// The component's sets with their elements.
fn written_sets(alloc: Global, sets: &[&RawSet]) -> Result<Vec<EnumSet>, Memory>
    ensures { IfOk result (λ found. found.items ≡ entries_of (refs sets.now)) }
{
    let mut found = Vec::new(alloc);
    for set in sets {
        found.push(written_set(alloc, set)?)?;
    }
    Ok(found)
}

// A set with its elements, where 32 bits number them.
fn written_set(alloc: Global, set: &RawSet) -> Result<EnumSet, Memory>
    ensures { IfOk result (λ made. made ∷ [] ≡ entries_of (set.now ∷ [])) }
{
    let elements = texts_of(alloc, &set.elements)?;
    let Ok(size) = u32::try_from(elements.len()) else {
        return Err(Memory);
    };
    Ok(EnumSet {
        name: set.name.text.copy(alloc)?,
        elements,
        size,
    })
}

// The texts of names.
fn texts_of(alloc: Global, names: &[RawName]) -> Result<Vec<Text>, Memory>
    ensures { IfOk result (λ found. found.items ≡ texts names.now) }
{
    let mut found = Vec::new(alloc);
    for name in names {
        found.push(name.text.copy(alloc)?)?;
    }
    Ok(found)
}

// The texts with the types of the numbers from this one on; what has no type is refused.
fn with_types(typing: Typing<'_>, first: u32, texts: Vec<Text>) -> Result<Vec<(Text, Ty)>, Memory>
    ensures { IfOk result (λ found. variables_added found.items ≡ entries_from (typing_of typing.entry.types.now) first texts.items) }
{
    let mut found = Vec::new(typing.alloc);
    let mut number = first;
    for text in texts {
        let ty = type_of(typing, number)?;
        found.push((text, ty))?;
        number = ahead(number, 1)?;
    }
    Ok(found)
}

// The type of a number; that of what has none does not matter.
fn type_of(typing: Typing<'_>, number: u32) -> Result<Ty, Memory>
    ensures { IfOk result (λ ty. ty ≡ or_bool (typing_of typing.entry.types.now number)) }
{
    match typing.of(number)? {
        Some(ty) => Ok(ty),
        None => Ok(Ty::boolean()),
    }
}

// ---- assembly

// The levels above with what a component adds, where it is counted.
fn counted(
    alloc: Global,
    max: i64,
    above: Option<Development>,
    added: Added,
) -> Result<Development, Memory>
    requires sets { (above_of above).sets ≡ (above_of above).table.sets }
    requires room { HasRoom (development_below max (above_of above) added) → IsDevelopment (with_level max above added) }
    ensures made { IfOk result (λ dev. dev ≡ with_level max above added) }
    ensures room { OnOk result (HasRoom (development_below max (above_of above) added)) }
{
    let higher = Above {
        development: above.as_ref(),
    };
    count_all(alloc, higher, &added)?;
    let made = with_level(alloc, max, above, added)?;
    Ok(made)
}

// The levels above with one more, if there are some.
fn with_level(
    alloc: Global,
    max: i64,
    above: Option<Development>,
    added: Added,
) -> Result<Development, Memory>
    requires sets { (above_of above).sets ≡ (above_of above).table.sets }
    requires development { IsDevelopment (with_level max above added) }
    ensures { IfOk result (λ dev. dev ≡ with_level max above added) }
{
    match above {
        Some(development) => below(alloc, max, development, added),
        None => alone(alloc, max, added),
    }
}

// A machine by itself.
fn alone(alloc: Global, max: i64, added: Added) -> Result<Development, Memory>
    requires { IsDevelopment (development_of max added) }
    ensures { IfOk result (λ dev. dev ≡ development_of max added) }
{
    let mut table = VarTable::new(alloc);
    add_sets(alloc, &mut table, &added.sets)?;
    add_variables(&mut table, added.variables)?;
    let mut extents = Vec::new(alloc);
    extents.push(extent_of(&table))?;
    Ok(Development {
        max,
        table,
        homes: added.homes,
        sets: added.sets,
        heads: added.heads,
        levels: added.own,
        values: added.values,
        extents,
    })
}

// The development above with one level more.
fn below(alloc: Global, max: i64, above: Development, added: Added) -> Result<Development, Memory>
    requires sets { above.sets ≡ above.table.sets }
    requires development { IsDevelopment (development_below max above added) }
    ensures { IfOk result (λ dev. dev ≡ development_below max above added) }
{
    let Development {
        max: _,
        mut table,
        mut homes,
        mut sets,
        heads,
        mut levels,
        values: _,
        mut extents,
    } = above;
    add_sets(alloc, &mut table, &added.sets)?;
    add_variables(&mut table, added.variables)?;
    let mut new_sets = added.sets;
    let mut new_homes = added.homes;
    let mut own = added.own;
    sets.append(&mut new_sets)?;
    homes.append(&mut new_homes)?;
    levels.append(&mut own)?;
    extents.push(extent_of(&table))?;
    Ok(Development {
        max,
        table,
        homes,
        sets,
        heads,
        levels,
        values: added.values,
        extents,
    })
}

// How many sets and variables a table has.
fn extent_of(table: &VarTable) -> (usize, usize)
    ensures { result ≡ (length table.now.sets, length table.now.variables) }
{
    (table.sets(), table.variables())
}

// The sets go into the table.
fn add_sets(alloc: Global, table: &mut VarTable, sets: &[EnumSet]) -> Result<(), Memory>
    requires counted { All IsCounted sets.now }
    requires few { length table.old.sets + length sets.now ≤ 2 ^ 32 }
    ensures { OnOk result (table.new ≡ with_sets table.old sets.now) }
{
    for set in sets {
        let name = set.name.copy(alloc)?;
        let elements = copies(alloc, &set.elements)?;
        table.add_set(name, elements, set.size)?;
    }
    Ok(())
}

// The same texts again.
fn copies(alloc: Global, texts: &[Text]) -> Result<Vec<Text>, Memory>
    ensures { IfOk result (λ found. found.items ≡ texts.now) }
{
    let mut found = Vec::new(alloc);
    for text in texts {
        found.push(text.copy(alloc)?)?;
    }
    Ok(found)
}

// The variables go into the table.
fn add_variables(table: &mut VarTable, variables: Vec<(Text, Ty)>) -> Result<(), Memory>
    requires listed { All (λ v. IsTrue (lists_type table.old v.1)) variables.items }
    requires few { length table.old.variables + length variables.items ≤ 2 ^ 32 }
    ensures { OnOk result (table.new ≡ with_variables table.old (variables_added variables.items)) }
{
    for (text, ty) in variables {
        table.add_variable(text, ty)?;
    }
    Ok(())
}
