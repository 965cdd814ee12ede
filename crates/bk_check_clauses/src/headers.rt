// The headers of operations, and a missing initialisation.

ghost use Rattle.std.specs.Option.{option_copied};
ghost use Rattle.std.specs.Prelude.{◌≡◌, ◌&&◌, true, cond, map, IfOk};
ghost use Rattle.std.specs.Str.{bytes_eq};
ghost use Rattle.bk_raw.specs.Errors.Blame.{blame};
ghost use Rattle.bk_elab_terms.specs.Shown.{told};
ghost use Rattle.bk_elab_terms.specs.Visible.{visible_names};
ghost use Rattle.bk_statics.specs.Binders.{texts};
ghost use Rattle.bk_statics.specs.Components as written;
ghost use Rattle.bk_check_clauses.specs.Kept.{operation_faults_by};
ghost use Rattle.bk_statics.specs.OperationFaults as meant;
ghost use Rattle.bk_statics.specs.NameFaults.{named_texts};
ghost use Rattle.bk_statics.specs.Plan.{is_headed};
ghost use Rattle.bk_scope.specs.Shown.{above_shown, component_shown, declared_shown, refs, is_blank, IsPlanOf};

use crate::name_fault::is_named;
use crate::shape::{shape_fault, unless};
use bk_dev::OpHead;
use bk_elab_terms::{Fault, Visible, earlier};
use bk_io::Memory;
use bk_raw::{RawName, RawOperation};
use bk_scope::above::Above;
use bk_scope::component::{Blank, Component};
use bk_scope::plan::{Plan, is_headed};
use std::alloc::Global;

/// The first fault of the component's operations: a missing initialisation, where substitutions stand, and headers.
pub fn operation_fault(
    alloc: Global,
    above: Above<'_>,
    component: &Component<'_>,
    plan: &Plan<'_>,
    blank: &Blank,
) -> Result<Option<Fault>, Memory>
    requires blank { is_blank component.now.at blank.now }
    requires planned { IsPlanOf plan.now (above_shown above) (component_shown component.now) }
    ensures { IfOk result (λ fault. told fault ≡ blame (operation_faults_by above.entry component.now)) }
{
    let missing = missing_start(component, plan);
    let start = shape_fault(component.kind, false, component.start(blank));
    let bodies = bodies_shape(component);
    let lower = lower_fault(alloc, above, component)?;
    Ok(earlier(missing, earlier(start, earlier(bodies, lower))))
}

// That of a missing initialisation, where the level has variables.
fn missing_start(component: &Component<'_>, plan: &Plan<'_>) -> Option<Fault>
    ensures { told result ≡
        blame (meant.missing_init component.now.at (option_copied component.now.init) (map declared_shown plan.now.variables.items)) }
{
    match component.init {
        Some(_) => None,
        None => unless(plan.variables.is_empty(), component.at),
    }
}

// That of where the parts of bodies stand.
#[tactic(auto, using(bk_raw::proofs::Blamed::blames))]
fn bodies_shape(component: &Component<'_>) -> Option<Fault>
    ensures { told result ≡ blame (meant.bodies_shape component.now.kind (refs component.now.operations.items)) }
{
    let mut fault = None;
    for operation in &component.operations {
        fault = earlier(fault, shape_fault(component.kind, false, &operation.body));
    }
    fault
}

// That of headers: below the machine they are the machine's, and every operation stands at every level.
#[tactic(auto, using(bk_raw::proofs::Blamed::blames))]
fn lower_fault(
    alloc: Global,
    above: Above<'_>,
    component: &Component<'_>,
) -> Result<Option<Fault>, Memory>
    ensures { IfOk result (λ fault. told fault ≡ blame (meant.lower_faults (written.is_machine component.now.kind)
        (above_shown above.entry) (component_shown component.now))) }
{
    if component.is_machine() {
        return Ok(None);
    }
    let mut fault = None;
    for operation in &component.operations {
        fault = earlier(fault, header_fault(alloc, above, operation)?);
    }
    Ok(earlier(fault, missing_fault(above, component)))
}

// That of an operation that the machine lacks, or heads otherwise, at its first token.
fn header_fault(
    alloc: Global,
    above: Above<'_>,
    operation: &RawOperation,
) -> Result<Option<Fault>, Memory>
    ensures { IfOk result (λ fault. told fault ≡ blame (meant.unless
        (is_headed (above_shown above.entry).heads operation.now.name.text
        && meant.heads_as (above_shown above.entry) 0 (above_shown above.entry).heads operation.now)
        (written.first_token operation.now))) }
{
    let known = is_headed(above.heads(), operation.name.text.as_bytes());
    let same = heads_as(alloc, above, operation)?;
    Ok(unless(known && same, first_token(operation)))
}

// Whether each header that has the operation's name has its inputs and outputs.
fn heads_as(alloc: Global, above: Above<'_>, operation: &RawOperation) -> Result<bool, Memory>
    ensures { IfOk result (λ b. b ≡ meant.heads_as (above_shown above.entry) 0 (above_shown above.entry).heads operation.now) }
{
    let heads = above.heads();
    for (index, head) in heads.iter().enumerate() {
        if !heads_alike(alloc, above, index, head, operation)? {
            return Ok(false);
        }
    }
    Ok(true)
}

// Whether the header of this number, if it has the operation's name, has its inputs and outputs.
fn heads_alike(
    alloc: Global,
    above: Above<'_>,
    index: usize,
    head: &OpHead,
    operation: &RawOperation,
) -> Result<bool, Memory>
    ensures { IfOk result (λ b. b ≡ cond (bytes_eq head.now.name operation.now.name.text)
        (meant.is_same_header (above_shown above.entry) index head.now operation.now) true) }
{
    if head.name.as_bytes() == operation.name.text.as_bytes() {
        return is_same_header(alloc, above, index, head, operation);
    }
    Ok(true)
}

// Whether the machine's operation of this number, which has this header, has the operation's inputs and outputs, in the
// same order.
fn is_same_header(
    alloc: Global,
    above: Above<'_>,
    index: usize,
    head: &OpHead,
    operation: &RawOperation,
) -> Result<bool, Memory>
    ensures { IfOk result (λ b. b ≡ meant.is_same_header (above_shown above.entry) index head.now operation.now) }
{
    let inputs = above.inputs(alloc, &head.inputs)?;
    let outputs = above.outputs(alloc, index)?;
    Ok(have_texts(&inputs, &operation.inputs) && have_texts(&outputs, &operation.outputs))
}

// Whether these names have those texts.
fn have_texts(names: &[Visible<'_>], written: &[RawName]) -> bool
    ensures { result ≡ meant.same_texts (named_texts (visible_names names.now)) (texts written.now) }
{
    if names.len() != written.len() {
        return false;
    }
    for (index, name) in names.iter().enumerate() {
        if name.text != written[index].text.as_bytes() {
            return false;
        }
    }
    true
}

// Where an operation's first token stands: an output's, or its name's.
fn first_token(operation: &RawOperation) -> usize
    ensures { result ≡ written.first_token operation.now }
{
    match operation.outputs.first() {
        Some(output) => output.at,
        None => operation.name.at,
    }
}

// That of the machine's operations that are missing, at the component.
#[tactic(auto, using(bk_raw::proofs::Blamed::blames))]
fn missing_fault(above: Above<'_>, component: &Component<'_>) -> Option<Fault>
    ensures { told result ≡ blame (meant.missing_faults component.now.at
        (texts (written.operation_names (refs component.now.operations.items))) (above_shown above.entry).heads) }
{
    let mut fault = None;
    let heads = above.heads();
    for head in heads {
        let there = is_named(&component.operations, head.name.as_bytes());
        fault = earlier(fault, unless(there, component.at));
    }
    fault
}
