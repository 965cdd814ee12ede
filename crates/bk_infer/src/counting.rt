// How many names a component declares.

ghost use Rattle.std.specs.Option.{option_copied};
ghost use Rattle.std.specs.Prelude.{◌≡◌, ◌+◌, ◌≤◌};
ghost use Rattle.bk_raw.specs.Trees.RawTree.{trees_of};
ghost use Rattle.bk_raw.specs.Codes.RawView.{ranges_of};
ghost use Rattle.bk_raw.specs.Codes.SubView.{choices_of};
ghost use Rattle.bk_statics.specs.DeclaredNames as meant;
ghost use Rattle.bk_scope.specs.Shown.{branches_shown, capped, component_shown, refs};

use bk_limits::MOST_NAMES;
use bk_raw::{RawBranch, RawNode, RawOperation, RawRange, RawSub, RawSubNode, RawTerm};
use bk_scope::binders::last_of;
use bk_scope::component::Component;

/// More names than may be declared, which is as far as they are counted.
const TOO_MANY: usize = MOST_NAMES + 1;

/// Whether the component declares more names than it may.
pub fn declares_too_many(component: &Component<'_>) -> bool
    ensures { result ≡ meant.declares_too_many (component_shown component.now) }
{
    declared_count(component) > MOST_NAMES
}

// Both together, as far as they are counted.
fn sum(left: usize, right: usize) -> usize
    requires one { left ≤ MOST_NAMES + 1 }
    requires other { right ≤ MOST_NAMES + 1 }
    ensures { result ≡ capped (left + right) }
{
    (left + right).min(TOO_MANY)
}

// A count, as far as it is counted.
fn count(number: usize) -> usize
    ensures { result ≡ capped number }
{
    number.min(TOO_MANY)
}

// How many names the component declares.
fn declared_count(component: &Component<'_>) -> usize
    ensures { result ≡ capped (meant.declared_count (component_shown component.now)) }
{
    let done = sum(
        names_done(component.init),
        operations_count(&component.operations),
    );
    let asserted = sum(listed_names(&component.assertions), done);
    let invariant = sum(stated_names(component.invariant), asserted);
    let stated = sum(stated_names(component.properties), invariant);
    sum(count(component.declared.len()), stated)
}

// The names in a predicate, if there is one.
fn stated_names(predicate: Option<&RawTerm>) -> usize
    ensures { result ≡ capped (meant.if_there meant.term_names (option_copied predicate.entry)) }
{
    match predicate {
        Some(predicate) => term_names(predicate),
        None => 0,
    }
}

// The names in a substitution, if there is one.
fn names_done(sub: Option<&RawSub>) -> usize
    ensures { result ≡ capped (meant.if_there meant.sub_names (option_copied sub.entry)) }
{
    match sub {
        Some(sub) => sub_names(sub),
        None => 0,
    }
}

// The names in terms of a list.
fn listed_names(terms: &[&RawTerm]) -> usize
    ensures { result ≡ capped (meant.sum_of meant.term_names (refs terms.now)) }
{
    let mut names = 0;
    for term in terms {
        names = sum(names, term_names(term));
    }
    names
}

// The names of all operations.
fn operations_count(operations: &[&RawOperation]) -> usize
    ensures { result ≡ capped (meant.sum_of meant.operation_count (refs operations.now)) }
{
    let mut names = 0;
    for operation in operations {
        names = sum(names, operation_count(operation));
    }
    names
}

// An operation's own name, its inputs and outputs, and the names in its body.
fn operation_count(operation: &RawOperation) -> usize
    ensures { result ≡ capped (meant.operation_count operation.now) }
{
    let header = sum(
        count(operation.inputs.len()),
        count(operation.outputs.len()),
    );
    sum(sum(1, header), sub_names(&operation.body))
}

// The names that quantifiers, comprehensions and lambdas in a term bind.
#[tactic(auto, using(bk_elab_terms::proofs::Sizes::parts_are_smaller))]
#[cycle(terms)]
fn term_names(term: &RawTerm) -> usize
    ensures { result ≡ capped (meant.term_names term.now) }
{
    match &term.node {
        RawNode::Name(_)
        | RawNode::LevelName(_, _)
        | RawNode::BoundName(_)
        | RawNode::Number(_)
        | RawNode::Constant(_)
        | RawNode::EmptySet
        | RawNode::TypedEmpty(_) => 0,
        RawNode::Word(_, part) | RawNode::Negative(part) | RawNode::Inverse(part) => {
            term_names(part)
        }
        RawNode::Infix(_, left, right)
        | RawNode::Image(left, right)
        | RawNode::Apply(left, right)
        | RawNode::Composition(left, right)
        | RawNode::Pair(left, right) => {
            let one = term_names(left);
            sum(one, term_names(right))
        }
        RawNode::Extension(elements) => all_names(elements),
        RawNode::Comprehension(names, body)
        | RawNode::ForAll(names, body)
        | RawNode::Exists(names, body) => sum(count(names.len()), term_names(body)),
        RawNode::Lambda(names, body, value) => {
            let within = term_names(body);
            let both = sum(within, term_names(value));
            sum(count(names.len()), both)
        }
        RawNode::TypedForAll(_, body) | RawNode::TypedExists(_, body) => term_names(body),
        RawNode::RangedComprehension(ranges, body) => {
            let one = ranges_names(ranges);
            sum(one, term_names(body))
        }
        RawNode::RangedLambda(ranges, body, value) => {
            let one = ranges_names(ranges);
            let within = term_names(body);
            sum(one, sum(within, term_names(value)))
        }
    }
}

// Those in several terms.
#[tactic(auto, using(bk_elab_terms::proofs::Sizes::parts_are_smaller))]
#[cycle(terms)]
fn all_names(terms: &[RawTerm]) -> usize
    ensures { result ≡ capped (meant.all_term_names (trees_of terms.now)) }
{
    let mut names = 0;
    for term in terms {
        names = sum(names, term_names(term));
    }
    names
}

// Those in printed ranges.
#[tactic(auto, using(bk_elab_terms::proofs::Sizes::parts_are_smaller))]
#[cycle(terms)]
fn ranges_names(ranges: &[RawRange]) -> usize
    ensures { result ≡ capped (meant.ranges_names (ranges_of ranges.now)) }
{
    let mut names = 0;
    for range in ranges {
        names = sum(names, term_names(&range.range));
    }
    names
}

// The names that ANY, LET and VAR and the terms of a substitution bind.
#[tactic(auto, using(bk_scope::proofs::SubSizes::parts_are_smaller, bk_elab_terms::proofs::Sizes::parts_are_smaller))]
#[cycle(subs)]
fn sub_names(sub: &RawSub) -> usize
    ensures { result ≡ capped (meant.sub_names sub.now) }
{
    match &sub.node {
        RawSubNode::Skip => 0,
        RawSubNode::Assign(_, terms) | RawSubNode::Call(_, _, terms) => all_names(terms),
        RawSubNode::AssignAt(_, index, value) => {
            let one = term_names(index);
            sum(one, term_names(value))
        }
        RawSubNode::BecomesMember(_, term) | RawSubNode::BecomesSuch(_, term) => term_names(term),
        RawSubNode::Begin(body) => sub_names(body),
        RawSubNode::Pre(term, body) | RawSubNode::Assert(term, body) => {
            sum(term_names(term), sub_names(body))
        }
        RawSubNode::If(term, first, others, last) | RawSubNode::Select(term, first, others, last) =>
            {
                let yes = sub_names(first);
                let rest = branches_names(others, last_of(last));
                sum(term_names(term), sum(yes, rest))
            }
        RawSubNode::Choice(first, others) => {
            let one = sub_names(first);
            sum(one, choices_names(others))
        }
        RawSubNode::Any(names, term, body) | RawSubNode::Let(names, term, body) => {
            let within = sum(term_names(term), sub_names(body));
            sum(count(names.len()), within)
        }
        RawSubNode::Var(names, body) => sum(count(names.len()), sub_names(body)),
        RawSubNode::While(test, body, invariant, variant) => {
            let stated = sum(term_names(invariant), term_names(variant));
            let within = sub_names(body);
            sum(term_names(test), sum(within, stated))
        }
        RawSubNode::Parallel(left, right) | RawSubNode::Sequence(left, right) => {
            let one = sub_names(left);
            sum(one, sub_names(right))
        }
    }
}

// Those of further branches.
#[tactic(auto, using(bk_scope::proofs::SubSizes::parts_are_smaller, bk_elab_terms::proofs::Sizes::parts_are_smaller))]
#[cycle(subs)]
fn branches_names(branches: &[RawBranch], last: Option<&RawSub>) -> usize
    ensures { result ≡ capped (meant.branches_names (branches_shown branches.now (option_copied last.entry))) }
{
    let [branch, others @ ..] = branches else {
        return match last {
            Some(last) => sub_names(last),
            None => 0,
        };
    };
    let yes = sub_names(&branch.body);
    let rest = branches_names(others, last);
    sum(term_names(&branch.condition), sum(yes, rest))
}

// Those of further choices.
#[tactic(auto, using(bk_scope::proofs::SubSizes::parts_are_smaller, bk_elab_terms::proofs::Sizes::parts_are_smaller))]
#[cycle(subs)]
fn choices_names(choices: &[RawSub]) -> usize
    ensures { result ≡ capped (meant.choices_names (choices_of choices.now)) }
{
    let [choice, others @ ..] = choices else {
        return 0;
    };
    let one = sub_names(choice);
    sum(one, choices_names(others))
}
