// Which right sides give no range, by their form and by what they turned out to be.

ghost use Rattle.std.specs.Prelude.{◌≡◌};
ghost use Rattle.bk_raw.specs.Trees.RawTree.{trees_of};
ghost use Rattle.bk_elab_terms.specs.Kept as kept;
ghost use Rattle.bk_elab_terms.specs.Shown.{shown_outcome};

use crate::outcome::Told;
use crate::partial::{Expression, Node};
use crate::written::is_predicate;
use bk_form::{Ty, TyView};
use bk_raw::{Constant, InfixOp, RawNode, RawTerm, WordOp};

// Whether a right side gives no range by its form alone: a predicate, a domain that is no value, or an expression with
// `{}` in it that gives no type.
pub(crate) fn gives_no_range(term: &RawTerm) -> bool
    ensures { result ≡ kept.gives_no_range term.now }
{
    is_predicate(term) || is_domain(term) || is_hollow(term)
}

// Whether a term of this form is a domain that is no value, where it is anything.
#[tactic(auto, using(crate::proofs::Sizes::parts_are_smaller))]
fn is_domain(term: &RawTerm) -> bool
    ensures { result ≡ kept.is_domain term.now }
{
    match &term.node {
        RawNode::Constant(word) => is_domain_word(*word),
        RawNode::Word(op, _) => makes_power(*op),
        RawNode::Infix(op, left, right) => {
            makes_arrow(*op) || *op == InfixOp::Times && (is_domain(left) || is_domain(right))
        }
        _ => false,
    }
}

// Whether it is `INTEGER`, `NATURAL` or `NATURAL1`.
fn is_domain_word(word: Constant) -> bool
    ensures { result ≡ kept.is_domain_word word }
{
    matches!(
        word,
        Constant::Integer | Constant::Natural | Constant::Natural1
    )
}

// Whether it is `POW`, `POW1`, `FIN` or `FIN1`.
fn makes_power(op: WordOp) -> bool
    ensures { result ≡ kept.makes_power op }
{
    matches!(op, WordOp::Pow | WordOp::Pow1 | WordOp::Fin | WordOp::Fin1)
}

// Whether the operator makes a domain of relations or functions.
fn makes_arrow(op: InfixOp) -> bool
    ensures { result ≡ kept.makes_arrow op }
{
    matches!(
        op,
        InfixOp::Relations
            | InfixOp::PartialFunctions
            | InfixOp::TotalFunctions
            | InfixOp::PartialInjections
            | InfixOp::TotalInjections
            | InfixOp::PartialSurjections
            | InfixOp::TotalSurjections
            | InfixOp::Bijections
    )
}

// Whether a term of this form is an expression that gives no type, for the `{}` in it, where it is anything.
#[tactic(auto, using(crate::proofs::Sizes::parts_are_smaller))]
#[cycle(hollow)]
fn is_hollow(term: &RawTerm) -> bool
    ensures { result ≡ kept.is_hollow term.now }
{
    match &term.node {
        RawNode::EmptySet => true,
        RawNode::Extension(elements) => are_hollow(elements),
        RawNode::Pair(left, right) => is_hollow(left) || is_hollow(right),
        RawNode::Infix(op, left, right) => {
            if is_maplet(*op) {
                return is_hollow(left) || is_hollow(right);
            }
            makes_joint(*op) && is_hollow(left) && is_hollow(right)
        }
        _ => false,
    }
}

// Whether each of the terms is one.
#[tactic(auto, using(crate::proofs::Sizes::parts_are_smaller))]
#[cycle(hollow)]
fn are_hollow(terms: &[RawTerm]) -> bool
    ensures { result ≡ kept.are_hollow (trees_of terms.now) }
{
    for term in terms {
        if !is_hollow(term) {
            return false;
        }
    }
    true
}

// Whether it is `|->`.
fn is_maplet(op: InfixOp) -> bool
    ensures { result ≡ kept.is_maplet op }
{
    op == InfixOp::Maplet
}

// Whether the operator makes one set of two.
fn makes_joint(op: InfixOp) -> bool
    ensures { result ≡ kept.makes_joint op }
{
    matches!(
        op,
        InfixOp::Union | InfixOp::Intersection | InfixOp::Minus | InfixOp::Override
    )
}

// Whether what a right side turned out to be gives no range, and nothing that is made of it depends on its formula: it
// is nothing, or an element is asked of what is no set.
pub(crate) fn is_lasting(op: InfixOp, told: &Told) -> bool
    ensures { result ≡ kept.is_lasting op (shown_outcome told.now) }
{
    match told {
        Told::Silent => true,
        Told::Expressed(
            Expression {
                node: Node::Whole(_, ty),
            },
        ) => op == InfixOp::Member && !is_set(ty),
        _ => false,
    }
}

// Whether it is a type of sets.
fn is_set(ty: &Ty) -> bool
    ensures { result ≡ kept.is_set_type ty.now }
{
    matches!(ty.view(), TyView::Set(_))
}
