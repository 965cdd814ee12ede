// Where substitutions may stand: `;` and VAR not in machines, WHILE in implementations alone, and none of the three
// inside `||`.

ghost use Rattle.std.specs.Option.{option_copied};
ghost use Rattle.std.specs.Prelude.{◌≡◌};
ghost use Rattle.bk_raw.specs.Codes.SubView.{choices_of};
ghost use Rattle.bk_raw.specs.Errors.Blame.{blame};
ghost use Rattle.bk_elab_terms.specs.Shown.{told};
ghost use Rattle.bk_statics.specs.OperationFaults as meant;
ghost use Rattle.bk_scope.specs.Shown.{branches_shown};

use bk_dev::Kind;
use bk_elab_terms::{Fault, earlier};
use bk_raw::{FaultKind, RawBranch, RawSub, RawSubNode};
use bk_scope::binders::last_of;

// The fault of an operation or a substitution, unless the test holds.
pub(crate) fn unless(holds: bool, at: usize) -> Option<Fault>
    ensures { told result ≡ blame (meant.unless holds at) }
{
    if holds {
        return None;
    }
    Some(Fault {
        kind: FaultKind::WrongOperation,
        place: at,
    })
}

// The first fault of where a substitution stands, in a component of a kind, perhaps inside `||`.
#[tactic(auto, using(bk_scope::proofs::SubSizes::parts_are_smaller, bk_raw::proofs::Blamed::blames))]
#[cycle(shape)]
pub(crate) fn shape_fault(kind: Kind, inside: bool, sub: &RawSub) -> Option<Fault>
    ensures { told result ≡ blame (meant.shape_faults kind inside sub.now) }
{
    let ordered = kind != Kind::Machine && !inside;
    match &sub.node {
        RawSubNode::Skip
        | RawSubNode::Assign(_, _)
        | RawSubNode::AssignAt(_, _, _)
        | RawSubNode::BecomesMember(_, _)
        | RawSubNode::BecomesSuch(_, _) => None,
        RawSubNode::Call(_, _, _) => unless(false, sub.at),
        RawSubNode::Begin(body)
        | RawSubNode::Pre(_, body)
        | RawSubNode::Assert(_, body)
        | RawSubNode::Any(_, _, body)
        | RawSubNode::Let(_, _, body) => shape_fault(kind, inside, body),
        RawSubNode::If(_, first, others, last) | RawSubNode::Select(_, first, others, last) => {
            let fault = shape_fault(kind, inside, first);
            earlier(fault, branches_shape(kind, inside, others, last_of(last)))
        }
        RawSubNode::Choice(first, others) => {
            let fault = shape_fault(kind, inside, first);
            earlier(fault, choices_shape(kind, inside, others))
        }
        RawSubNode::Var(_, body) => {
            let within = shape_fault(kind, inside, body);
            earlier(unless(ordered, sub.at), within)
        }
        RawSubNode::While(_, body, _, _) => {
            let looping = kind == Kind::Implementation && !inside;
            let within = shape_fault(kind, inside, body);
            earlier(unless(looping, sub.at), within)
        }
        RawSubNode::Parallel(left, right) => {
            let fault = shape_fault(kind, true, left);
            earlier(fault, shape_fault(kind, true, right))
        }
        RawSubNode::Sequence(left, right) => {
            let fault = shape_fault(kind, inside, left);
            let both = earlier(fault, shape_fault(kind, inside, right));
            earlier(unless(ordered, sub.at), both)
        }
    }
}

// That of further branches.
#[tactic(auto, using(bk_scope::proofs::SubSizes::parts_are_smaller, bk_raw::proofs::Blamed::blames))]
#[cycle(shape)]
fn branches_shape(
    kind: Kind,
    inside: bool,
    branches: &[RawBranch],
    last: Option<&RawSub>,
) -> Option<Fault>
    ensures { told result ≡
        blame (meant.branches_shape kind inside (branches_shown branches.now (option_copied last.entry))) }
{
    let [branch, others @ ..] = branches else {
        return match last {
            Some(last) => shape_fault(kind, inside, last),
            None => None,
        };
    };
    let fault = shape_fault(kind, inside, &branch.body);
    earlier(fault, branches_shape(kind, inside, others, last))
}

// That of further choices.
#[tactic(auto, using(bk_scope::proofs::SubSizes::parts_are_smaller, bk_raw::proofs::Blamed::blames))]
#[cycle(shape)]
fn choices_shape(kind: Kind, inside: bool, choices: &[RawSub]) -> Option<Fault>
    ensures { told result ≡ blame (meant.choices_shape kind inside (choices_of choices.now)) }
{
    let [choice, others @ ..] = choices else {
        return None;
    };
    let fault = shape_fault(kind, inside, choice);
    earlier(fault, choices_shape(kind, inside, others))
}
