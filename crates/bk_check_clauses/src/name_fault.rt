// Names of a component that stand twice.

ghost use Rattle.std.specs.Prelude.{◌≡◌, ◌||◌, ◌++◌, ◌∷◌, [], cond, map, IfOk};
ghost use Rattle.bk_raw.specs.Errors.Blame.{blame};
ghost use Rattle.bk_elab_terms.specs.Shown.{told};
ghost use Rattle.bk_elab_terms.specs.Visible.{visible_names};
ghost use Rattle.bk_raw.specs.Meaning.Binders.{is_text, twice};
ghost use Rattle.bk_raw.specs.Errors.Faults.{twice_named};
ghost use Rattle.bk_statics.specs.Above.{names_at_level};
ghost use Rattle.bk_statics.specs.Binders.{texts};
ghost use Rattle.bk_statics.specs.Components as written;
ghost use Rattle.bk_statics.specs.NameFaults as meant;
ghost use Rattle.bk_statics.specs.Plan.{declared_texts};
ghost use Rattle.bk_scope.specs.Shown.{above_shown, component_shown, declared_shown, refs, variable_shown};

use bk_dev::Level;
use bk_elab_terms::binder::twice;
use bk_elab_terms::{Fault, Visible, earlier};
use bk_io::Memory;
use bk_raw::{RawName, RawOperation, RawSet};
use bk_scope::above::Above;
use bk_scope::component::{Component, WrittenVariable};
use bk_scope::faults::second_if;
use bk_scope::plan::{Declared, carried, is_carried};
use std::alloc::Global;

/// The first fault of a component's names.
pub fn name_fault(
    alloc: Global,
    above: Above<'_>,
    component: &Component<'_>,
) -> Result<Option<Fault>, Memory>
    ensures { IfOk result (λ fault. told fault ≡
        blame (meant.name_faults (above_shown above.entry) (component_shown component.now))) }
{
    let own = component_fault(above, component.name);
    let globals = above.globals(alloc)?;
    let declared = twice_after(&globals, &component.declared);
    let variables = all_variables(alloc, above)?;
    let hidden = taken(&variables, component);
    let upper = above.upper(alloc)?;
    let standing = carried(alloc, above, &upper)?;
    let again = abstract_fault(&standing, component);
    let operations = operations_fault(&component.operations);
    let headers = headers_fault(&component.operations);
    let rest = earlier(again, earlier(operations, headers));
    Ok(earlier(own, earlier(declared, earlier(hidden, rest))))
}

// That of the component's own name: a level above has it.
fn component_fault(above: Above<'_>, name: &RawName) -> Option<Fault>
    ensures { told result ≡
        blame (meant.taken (meant.level_texts (above_shown above.entry).levels) (name.now ∷ [])) }
{
    second_if(is_level(above, name.text.as_bytes()), name.at)
}

// Whether one of the levels above has the name.
fn is_level(above: Above<'_>, text: &[u8]) -> bool
    ensures { result ≡ is_text (meant.level_texts (above_shown above.entry).levels) text.now }
{
    let levels = above.levels();
    for level in levels {
        if level.name.as_bytes() == text {
            return true;
        }
    }
    false
}

// That of names that stand before, or among these others.
#[tactic(auto, using(bk_raw::proofs::Blamed::blames))]
fn twice_after(others: &[Visible<'_>], names: &[&RawName]) -> Option<Fault>
    ensures { told result ≡ blame (twice (meant.named_texts (visible_names others.now)) (refs names.now)) }
{
    let mut fault = None;
    for (index, name) in names.iter().enumerate() {
        let again = is_seen(others, &names[..index], name.text.as_bytes());
        fault = earlier(fault, second_if(again, name.at));
    }
    fault
}

// Whether one of the names in scope, or one of those before, has the text.
fn is_seen(others: &[Visible<'_>], before: &[&RawName], text: &[u8]) -> bool
    ensures { result ≡ (is_text (meant.named_texts (visible_names others.now)) text.now || is_text (texts (refs before.now)) text.now) }
{
    is_visible(others, text) || is_among(before, text)
}

// Whether one of the names in scope has the text.
fn is_visible(names: &[Visible<'_>], text: &[u8]) -> bool
    ensures { result ≡ is_text (meant.named_texts (visible_names names.now)) text.now }
{
    for name in names {
        if name.text == text {
            return true;
        }
    }
    false
}

// Whether one of the names has the text.
fn is_among(names: &[&RawName], text: &[u8]) -> bool
    ensures { result ≡ is_text (texts (refs names.now)) text.now }
{
    for name in names {
        if name.text.as_bytes() == text {
            return true;
        }
    }
    false
}

// The variables of all levels above, by their names.
fn all_variables<'a>(alloc: Global, above: Above<'a>) -> Result<Vec<Visible<'a>>, Memory>
    ensures { IfOk result (λ names. meant.named_texts (visible_names names.items) ≡
        meant.variable_texts 0 (above_shown above.entry) (above_shown above.entry).levels) }
{
    let mut names = Vec::new(alloc);
    let levels = above.levels();
    for (number, level) in levels.iter().enumerate() {
        let variables = level_variables(alloc, above, number, level)?;
        names.extend_from_slice(&variables)?;
    }
    Ok(names)
}

// The variables of the level of this number, by their names.
fn level_variables<'a>(
    alloc: Global,
    above: Above<'a>,
    number: usize,
    level: &Level,
) -> Result<Vec<Visible<'a>>, Memory>
    ensures { IfOk result (λ names. visible_names names.items ≡
        names_at_level number (above_shown above.entry).table level.now.vars) }
{
    above.names_at(alloc, number, &level.vars)
}

// That of sets, elements and constants that have one of these names.
#[tactic(auto, using(bk_raw::proofs::Blamed::blames))]
fn taken(names: &[Visible<'_>], component: &Component<'_>) -> Option<Fault>
    ensures { told result ≡ blame (meant.taken (meant.named_texts (visible_names names.now))
        (written.set_names (component_shown component.now).sets ++ (component_shown component.now).constants)) }
{
    let sets = taken_sets(names, &component.sets);
    earlier(sets, taken_constants(names, &component.constants))
}

// That of sets and their elements.
fn taken_sets(names: &[Visible<'_>], sets: &[&RawSet]) -> Option<Fault>
    ensures { told result ≡ blame (meant.taken (meant.named_texts (visible_names names.now)) (written.set_names (refs sets.now))) }
{
    let mut fault = None;
    for set in sets {
        fault = earlier(fault, taken_set(names, set));
    }
    fault
}

// That of a set and its elements.
#[tactic(auto, using(bk_raw::proofs::Blamed::blames))]
fn taken_set(names: &[Visible<'_>], set: &RawSet) -> Option<Fault>
    ensures { told result ≡ blame (
        cond (is_text (meant.named_texts (visible_names names.now)) set.now.name.text) (twice_named set.now.name.at ∷ []) []
        ++ meant.taken (meant.named_texts (visible_names names.now)) set.now.elements) }
{
    let own = taken_one(names, &set.name);
    let elements = taken_elements(names, &set.elements);
    earlier(own, elements)
}

// That of a set's elements.
fn taken_elements(names: &[Visible<'_>], elements: &[RawName]) -> Option<Fault>
    ensures { told result ≡ blame (meant.taken (meant.named_texts (visible_names names.now)) elements.now) }
{
    let mut fault = None;
    for element in elements {
        fault = earlier(fault, taken_one(names, element));
    }
    fault
}

// That of constants.
fn taken_constants(names: &[Visible<'_>], constants: &[&RawName]) -> Option<Fault>
    ensures { told result ≡ blame (meant.taken (meant.named_texts (visible_names names.now)) (refs constants.now)) }
{
    let mut fault = None;
    for constant in constants {
        fault = earlier(fault, taken_one(names, constant));
    }
    fault
}

// That of a name that is one of these.
fn taken_one(names: &[Visible<'_>], name: &RawName) -> Option<Fault>
    ensures { told result ≡ blame (
        cond (is_text (meant.named_texts (visible_names names.now)) name.now.text) (twice_named name.now.at ∷ []) []) }
{
    second_if(is_visible(names, name.text.as_bytes()), name.at)
}

// That of variables that come from above as concrete and are declared as abstract.
#[tactic(auto, using(bk_raw::proofs::Blamed::blames))]
fn abstract_fault(standing: &[Declared<'_>], component: &Component<'_>) -> Option<Fault>
    ensures { told result ≡ blame (meant.taken (declared_texts (map declared_shown standing.now))
        (written.abstract_names (component_shown component.now).variables)) }
{
    let mut fault = None;
    for variable in &component.variables {
        fault = earlier(fault, abstract_one(standing, *variable));
    }
    fault
}

// That of one of them.
fn abstract_one(standing: &[Declared<'_>], variable: WrittenVariable<'_>) -> Option<Fault>
    ensures { told result ≡ blame (meant.taken (declared_texts (map declared_shown standing.now))
        (written.abstract_names (variable_shown variable.entry ∷ []))) }
{
    if variable.is_concrete {
        return None;
    }
    let name = variable.name;
    let again = is_carried(standing, standing.len(), name.text.as_bytes());
    second_if(again, name.at)
}

// That of operations that have one name.
#[tactic(auto, using(bk_raw::proofs::Blamed::blames))]
fn operations_fault(operations: &[&RawOperation]) -> Option<Fault>
    ensures { told result ≡ blame (twice [] (written.operation_names (refs operations.now))) }
{
    let mut fault = None;
    for (index, operation) in operations.iter().enumerate() {
        fault = earlier(fault, named_again(&operations[..index], operation));
    }
    fault
}

// That of an operation whose name one of those before has.
fn named_again(before: &[&RawOperation], operation: &RawOperation) -> Option<Fault>
    ensures { told result ≡ blame (
        cond (is_text (texts (written.operation_names (refs before.now))) operation.now.name.text) (twice_named operation.now.name.at ∷ []) []) }
{
    let again = is_named(before, operation.name.text.as_bytes());
    second_if(again, operation.name.at)
}

// Whether one of the operations has the name.
pub(crate) fn is_named(operations: &[&RawOperation], text: &[u8]) -> bool
    ensures { result ≡ is_text (texts (written.operation_names (refs operations.now))) text.now }
{
    for operation in operations {
        if operation.name.text.as_bytes() == text {
            return true;
        }
    }
    false
}

// That of the inputs and outputs of an operation together.
#[tactic(auto, using(bk_raw::proofs::Blamed::blames))]
fn headers_fault(operations: &[&RawOperation]) -> Option<Fault>
    ensures { told result ≡ blame (meant.header_twice (refs operations.now)) }
{
    let mut fault = None;
    for operation in operations {
        fault = earlier(fault, header_fault(operation));
    }
    fault
}

// That of one operation: outputs stand before inputs.
#[tactic(auto, using(bk_raw::proofs::Blamed::blames))]
fn header_fault(operation: &RawOperation) -> Option<Fault>
    ensures { told result ≡ blame (twice [] (operation.now.outputs ++ operation.now.inputs)) }
{
    twice_among(&operation.outputs, &operation.inputs)
}

// That of names that stand twice in two lists.
fn twice_among(outputs: &[RawName], inputs: &[RawName]) -> Option<Fault>
    ensures { told result ≡ blame (twice [] (outputs.now ++ inputs.now)) }
{
    let own = twice(outputs);
    let behind = twice_behind(outputs, inputs);
    earlier(own, behind)
}

// That of names that stand among these others, or before.
fn twice_behind(others: &[RawName], names: &[RawName]) -> Option<Fault>
    ensures { told result ≡ blame (twice (texts others.now) names.now) }
{
    let mut fault = None;
    for (index, name) in names.iter().enumerate() {
        let again = either_has(others, &names[..index], name.text.as_bytes());
        fault = earlier(fault, second_if(again, name.at));
    }
    fault
}

// Whether one of the names, or one of those before, has the text.
fn either_has(others: &[RawName], before: &[RawName], text: &[u8]) -> bool
    ensures { result ≡ (is_text (texts others.now) text.now || is_text (texts before.now) text.now) }
{
    has_name(others, text) || has_name(before, text)
}

// Whether one of the names has the text.
fn has_name(names: &[RawName], text: &[u8]) -> bool
    ensures { result ≡ is_text (texts names.now) text.now }
{
    for name in names {
        if name.text.as_bytes() == text {
            return true;
        }
    }
    false
}
