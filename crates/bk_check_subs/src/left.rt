// Written names: the faults of what stands on the left, and the variables that a substitution writes.

ghost use Rattle.std.specs.Option.{option_copied};
ghost use Rattle.std.specs.Prelude.{◌≡◌, ◌+◌, ◌++◌, ◌∷◌, [], ℕ, cond, length, map, IfOk, OnOk};
ghost use Rattle.bk_form.specs.Role.{bind};
ghost use Rattle.bk_gsl.specs.State.{among};
ghost use Rattle.bk_raw.specs.Codes.SubView.{choices_of};
ghost use Rattle.bk_raw.specs.Errors.Blame.{blame};
ghost use Rattle.bk_raw.specs.Errors.Faults.{wrong_write};
ghost use Rattle.bk_elab_terms.specs.Shown.{told};
ghost use Rattle.bk_elab_terms.specs.Visible.{visible_names};
ghost use Rattle.bk_scope.specs.Shown.{branches_shown, target_shown};
ghost use Rattle.bk_check_subs.specs.Written.{writable_by, writes_shown};
ghost use Rattle.bk_statics.specs.SubFaults as meant;
ghost use Rattle.bk_statics.specs.Typings.{interval, numbered};

use bk_elab_terms::{Fault, Visible, earlier};
use bk_io::Memory;
use bk_raw::{RawBranch, RawName, RawSub, RawSubNode};
use bk_scope::binders::{binder_count, last_of};
use bk_scope::faults::{unknown_name, wrong_write, wrong_write_if};
use bk_scope::number::ahead;
use bk_scope::sight::{Target, bound, target_named};
use std::alloc::Global;

/// Numbers one after another.
#[derive(Clone, Copy)]
pub struct Interval {
    pub first: u32,
    pub count: usize,
}

impl Interval {
    // Whether a number is one of them.
    fn has(&self, number: u32) -> bool
        ensures { result ≡ among (interval self.now.first self.now.count) number }
    {
        number >= self.first && ((number - self.first) as usize) < self.count
    }
}

// A written variable, and where its name stands.
#[derive(Clone, Copy)]
pub(crate) struct Write {
    variable: u32,
    at: usize,
}

// Whether one of the intervals has the number.
fn is_writable(writable: &[Interval], number: u32) -> bool
    ensures { result ≡ writable_by writable.now number }
{
    for interval in writable {
        if interval.has(number) {
            return true;
        }
    }
    false
}

// The intervals, and before them one more.
pub(crate) fn with_interval(
    alloc: Global,
    first: u32,
    count: usize,
    others: &[Interval],
) -> Result<Vec<Interval>, Memory>
    ensures { IfOk result (λ all. (n : ℕ) → writable_by all.items n ≡ meant.writable_within first count (writable_by others.now) n) }
{
    let mut all = Vec::new(alloc);
    all.push(Interval { first, count })?;
    all.extend_from_slice(others)?;
    Ok(all)
}

// ---- faults

// The fault of a written name that is not in scope, or that is none of a variable that may be written.
fn target_fault(writable: &[Interval], at: usize, target: Target) -> Option<Fault>
    ensures { told result ≡ blame (meant.target_faults (writable_by writable.now) at (target_shown target)) }
{
    match target {
        Target::Unknown => unknown_name(at),
        Target::Constant => wrong_write(at),
        Target::Variable(variable) => wrong_write_if(!is_writable(writable, variable), at),
    }
}

// The first fault of the names on the left of one assignment.
pub(crate) fn left_fault(
    alloc: Global,
    names: &[Visible<'_>],
    writable: &[Interval],
    written: &[RawName],
) -> Result<Option<Fault>, Memory>
    ensures { IfOk result (λ fault. told fault ≡
        blame (meant.left_faults (visible_names names.now) (writable_by writable.now) [] written.now)) }
{
    let mut before = Vec::new(alloc);
    let mut fault = None;
    for name in written {
        let target = target_named(names, name.text.as_bytes());
        let wrong = target_fault(writable, name.at, target);
        let again = again_fault(&before, name.at, target);
        fault = earlier(fault, earlier(wrong, again));
        push_target(&mut before, target)?;
    }
    Ok(fault)
}

// The fault of the one name on the left of an assignment.
pub(crate) fn write_fault(
    names: &[Visible<'_>],
    writable: &[Interval],
    name: &RawName,
) -> Option<Fault>
    ensures { told result ≡
        blame (meant.left_faults (visible_names names.now) (writable_by writable.now) [] (name.now ∷ [])) }
{
    target_fault(writable, name.at, target_named(names, name.text.as_bytes()))
}

// The fault of a written variable that is one of these.
fn again_fault(before: &[u32], at: usize, target: Target) -> Option<Fault>
    ensures { told result ≡ blame (cond (meant.is_again before.now (target_shown target)) (wrong_write at ∷ []) []) }
{
    match target {
        Target::Variable(variable) => wrong_write_if(is_among(before, variable), at),
        _ => None,
    }
}

// Whether the number is one of these.
fn is_among(numbers: &[u32], number: u32) -> bool
    ensures { result ≡ among numbers.now number }
{
    for other in numbers {
        if number == *other {
            return true;
        }
    }
    false
}

// The variable of a target, if it is one, goes after those that were found.
fn push_target(found: &mut Vec<u32>, target: Target) -> Result<(), Memory>
    ensures { OnOk result ((n : ℕ) → among found.new.items n ≡
        among (meant.with_target (target_shown target) found.old.items) n) }
{
    if let Target::Variable(variable) = target {
        found.push(variable)?;
    }
    Ok(())
}

// The first fault of what both sides of `||` write: a name on the right whose variable the left writes.
#[tactic(auto, using(bk_raw::proofs::Blamed::blames))]
pub(crate) fn shared_fault(left: &[Write], right: &[Write]) -> Option<Fault>
    ensures { told result ≡ blame (meant.shared_faults (map (λ w. w.variable) left.now) (writes_shown right.now)) }
{
    let mut fault = None;
    for write in right {
        let is_shared = writes(left, write.variable);
        fault = earlier(fault, wrong_write_if(is_shared, write.at));
    }
    fault
}

// Whether one of these writes the variable.
fn writes(found: &[Write], variable: u32) -> bool
    ensures { result ≡ among (map (λ w. w.variable) found.now) variable }
{
    for write in found {
        if variable == write.variable {
            return true;
        }
    }
    false
}

// ---- what is written

// The variables of written names go after those that were found.
fn push_written(
    names: &[Visible<'_>],
    written: &[RawName],
    found: &mut Vec<Write>,
) -> Result<(), Memory>
    ensures { OnOk result (writes_shown found.new.items ≡
        writes_shown found.old.items ++ meant.written_names (visible_names names.now) written.now) }
{
    for name in written {
        found.push(Write {
            variable: target_named(names, name.text.as_bytes()).number(),
            at: name.at,
        })?;
    }
    Ok(())
}

// The one written name's variable goes after those that were found.
fn push_write(names: &[Visible<'_>], name: &RawName, found: &mut Vec<Write>) -> Result<(), Memory>
    ensures { OnOk result (writes_shown found.new.items ≡
        writes_shown found.old.items ++ meant.written_names (visible_names names.now) (name.now ∷ [])) }
{
    found.push(Write {
        variable: target_named(names, name.text.as_bytes()).number(),
        at: name.at,
    })?;
    Ok(())
}

// Of these writes, those of variables that are none of the interval's go after those that were found.
fn push_outside(own: Interval, inside: &[Write], found: &mut Vec<Write>) -> Result<(), Memory>
    ensures { OnOk result (writes_shown found.new.items ≡
        writes_shown found.old.items ++ meant.outside own.first own.count (writes_shown inside.now)) }
{
    for write in inside {
        push_unless_own(own, *write, found)?;
    }
    Ok(())
}

// A write goes after those that were found, unless its variable is one of the interval's.
fn push_unless_own(own: Interval, write: Write, found: &mut Vec<Write>) -> Result<(), Memory>
    ensures { OnOk result (writes_shown found.new.items ≡
        writes_shown found.old.items ++ meant.outside own.first own.count (writes_shown (write ∷ []))) }
{
    if !own.has(write.variable) {
        found.push(write)?;
    }
    Ok(())
}

// The variables that a substitution writes go after those that were found, each with the place of the name; what is
// bound has the numbers from this one on.
#[tactic(auto, using(bk_scope::proofs::SubSizes::parts_are_smaller))]
#[cycle(written)]
pub(crate) fn push_writes<'a>(
    alloc: Global,
    names: &[Visible<'a>],
    first: u32,
    sub: &'a RawSub,
    found: &mut Vec<Write>,
) -> Result<(), Memory>
    ensures { OnOk result (writes_shown found.new.items ≡
        writes_shown found.old.items ++ meant.written_in (visible_names names.now) first sub.now) }
{
    match &sub.node {
        RawSubNode::Skip | RawSubNode::Call(_, _, _) => Ok(()),
        RawSubNode::Assign(written, _) | RawSubNode::BecomesSuch(written, _) => {
            push_written(names, written, found)
        }
        RawSubNode::AssignAt(name, _, _) | RawSubNode::BecomesMember(name, _) => {
            push_write(names, name, found)
        }
        RawSubNode::Begin(body)
        | RawSubNode::Pre(_, body)
        | RawSubNode::Assert(_, body)
        | RawSubNode::While(_, body, _, _) => push_writes(alloc, names, first, body, found),
        RawSubNode::If(_, yes, others, last) | RawSubNode::Select(_, yes, others, last) => {
            push_writes(alloc, names, first, yes, found)?;
            let behind = ahead(first, binder_count(yes)?)?;
            push_branches_writes(alloc, names, behind, others, last_of(last), found)
        }
        RawSubNode::Choice(one, others) => {
            push_writes(alloc, names, first, one, found)?;
            let behind = ahead(first, binder_count(one)?)?;
            push_choices_writes(alloc, names, behind, others, found)
        }
        RawSubNode::Any(bound, _, body)
        | RawSubNode::Let(bound, _, body)
        | RawSubNode::Var(bound, body) => {
            push_outer_writes(alloc, names, first, bound, body, found)
        }
        RawSubNode::Parallel(left, right) | RawSubNode::Sequence(left, right) => {
            push_writes(alloc, names, first, left, found)?;
            let behind = ahead(first, binder_count(left)?)?;
            push_writes(alloc, names, behind, right, found)
        }
    }
}

// Of what a body under a binder writes, the variables that are not bound there.
#[tactic(auto, using(bk_scope::proofs::SubSizes::parts_are_smaller))]
#[cycle(written)]
fn push_outer_writes<'a>(
    alloc: Global,
    names: &[Visible<'a>],
    first: u32,
    binders: &'a [RawName],
    body: &'a RawSub,
    found: &mut Vec<Write>,
) -> Result<(), Memory>
    ensures { OnOk result (writes_shown found.new.items ≡ writes_shown found.old.items ++
        meant.outside first (length binders.now) (meant.written_in (bind (numbered first
        binders.now) (visible_names names.now)) (first + length binders.now) body.now)) }
{
    let inner = bound(alloc, first, binders, names)?;
    let behind = ahead(first, binders.len())?;
    let mut inside = Vec::new(alloc);
    push_writes(alloc, &inner, behind, body, &mut inside)?;
    let own = Interval {
        first,
        count: binders.len(),
    };
    push_outside(own, &inside, found)
}

// Those of further branches.
#[tactic(auto, using(bk_scope::proofs::SubSizes::parts_are_smaller))]
#[cycle(written)]
fn push_branches_writes<'a>(
    alloc: Global,
    names: &[Visible<'a>],
    first: u32,
    branches: &'a [RawBranch],
    last: Option<&'a RawSub>,
    found: &mut Vec<Write>,
) -> Result<(), Memory>
    ensures { OnOk result (writes_shown found.new.items ≡ writes_shown found.old.items ++
        meant.branches_written (visible_names names.now) first (branches_shown branches.now (option_copied last.entry))) }
{
    let [branch, others @ ..] = branches else {
        return match last {
            Some(last) => push_writes(alloc, names, first, last, found),
            None => Ok(()),
        };
    };
    push_writes(alloc, names, first, &branch.body, found)?;
    let behind = ahead(first, binder_count(&branch.body)?)?;
    push_branches_writes(alloc, names, behind, others, last, found)
}

// Those of further choices.
#[tactic(auto, using(bk_scope::proofs::SubSizes::parts_are_smaller))]
#[cycle(written)]
fn push_choices_writes<'a>(
    alloc: Global,
    names: &[Visible<'a>],
    first: u32,
    choices: &'a [RawSub],
    found: &mut Vec<Write>,
) -> Result<(), Memory>
    ensures { OnOk result (writes_shown found.new.items ≡ writes_shown found.old.items ++
        meant.choices_written (visible_names names.now) first (choices_of choices.now)) }
{
    let [choice, others @ ..] = choices else {
        return Ok(());
    };
    push_writes(alloc, names, first, choice, found)?;
    let behind = ahead(first, binder_count(choice)?)?;
    push_choices_writes(alloc, names, behind, others, found)
}
