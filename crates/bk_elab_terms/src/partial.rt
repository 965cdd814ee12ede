// Expressions that may have `{}` in them, so that they take types part by part.

ghost use Rattle.std.specs.Prelude.{◌≡◌, IfOk};
ghost use Rattle.bk_form.specs.Role.{same_type};
ghost use Rattle.bk_raw.specs.Meaning.Outcome.{whole, hollow, single_of, pair_of, joint_of, filled, both_made, joins, joint_op};
ghost use Rattle.bk_raw.specs.Meaning.OperatorReadings.{singled, paired};
ghost use Rattle.bk_elab_terms.specs.Joins.{joint_of_join};

use crate::made::{binary, unary};
use bk_form::{BinOp, Form, Part, Ty, TyView, UnOp};
use bk_io::Memory;
use std::alloc::Global;
use std::marker::Model;

/// The operators that make one set of two of its type.
#[derive(Clone, Copy, PartialEq, Eq, Debug)]
pub enum Join {
    /// `\/`.
    Union,
    /// `/\`.
    Intersection,
    /// `-`, on sets.
    Difference,
    /// `<+`.
    Override,
}

/// An expression: whole, with the type that it gives, or with `{}` in it. Clauses see the mathematical one.
#[cycle(expression)]
#[derive(Drop)]
pub struct Expression {
    pub node: Node,
}

/// What an expression is.
#[cycle(expression)]
#[derive(Drop)]
pub enum Node {
    /// A formula that gives this type.
    Whole(Form, Ty),
    /// `{}`.
    Empty,
    /// `{E}`, of an expression that gives no type.
    Single(Box<Expression>),
    /// `E |-> F`, where one of both gives no type.
    Pair(Box<Expression>, Box<Expression>),
    /// Two sets of one type, where none of both gives it.
    Joined(Join, Box<Expression>, Box<Expression>),
}

impl Model for Expression {
    ghost use Rattle.bk_raw.specs.Meaning.Outcome.{Partial};
    ghost use Rattle.bk_elab_terms.specs.Expressions.{coded_expression, expression_size};

    ghost Value = { Partial };

    ghost coded = { coded_expression };

    ghost use Rattle.bk_elab_terms.specs.Codes.ExpressionView.{expression_of};

    ghost view = { λ e. expression_of e.node };

    ghost size = { expression_size };

    ghost use Rattle.bk_elab_terms.specs.Codes.ExpressionFalls.{expression_falls};

    ghost size_decreases = { λ e h. expression_falls e.node };
}

impl Expression {
    /// A formula that gives this type.
    pub fn whole(form: Form, ty: Ty) -> Expression
        ensures { result ≡ whole form ty }
    {
        Expression {
            node: Node::Whole(form, ty),
        }
    }

    /// `{}`.
    pub fn empty() -> Expression
        ensures { result ≡ hollow }
    {
        Expression { node: Node::Empty }
    }

    /// `{E}`: whole where E gives a type.
    pub fn single(alloc: Global, element: Expression) -> Result<Expression, Memory>
        ensures { IfOk result (λ e. e ≡ singled element) }
    {
        match element.node {
            Node::Whole(form, ty) => {
                let set = unary(alloc, UnOp::Single, form)?;
                Ok(Expression::whole(set, Ty::set(alloc, ty)?))
            }
            node => {
                let element = Box::new(alloc, Expression { node })?;
                Ok(Expression {
                    node: Node::Single(element),
                })
            }
        }
    }

    /// `E |-> F`: whole where both give a type.
    pub fn pair(alloc: Global, left: Expression, right: Expression) -> Result<Expression, Memory>
        ensures { IfOk result (λ e. e ≡ paired left right) }
    {
        match (left.node, right.node) {
            (Node::Whole(first, ty), Node::Whole(second, other)) => {
                let pair = binary(alloc, BinOp::Maps, first, second)?;
                Ok(Expression::whole(pair, Ty::pair(alloc, ty, other)?))
            }
            (one, other) => {
                let left = Box::new(alloc, Expression { node: one })?;
                let right = Box::new(alloc, Expression { node: other })?;
                Ok(Expression {
                    node: Node::Pair(left, right),
                })
            }
        }
    }

    /// Two sets of one type, where none of both gives it.
    pub fn joined(
        alloc: Global,
        join: Join,
        left: Expression,
        right: Expression,
    ) -> Result<Expression, Memory>
        ensures { IfOk result (λ e. e ≡ joint_of (joint_of_join join) left right) }
    {
        let left = Box::new(alloc, left)?;
        let right = Box::new(alloc, right)?;
        Ok(Expression {
            node: Node::Joined(join, left, right),
        })
    }

    /// The formula where the place asks this type, if the expression takes it.
    pub fn fill(self, alloc: Global, ty: &Ty) -> Result<Option<Form>, Memory>
        ensures { IfOk result (λ f. f ≡ filled self ty.now) }
    {
        match (self.node, ty.view()) {
            (Node::Whole(form, given), _) => {
                if is_same(&given, ty) {
                    return Ok(Some(form));
                }
                Ok(None)
            }
            (Node::Empty, TyView::Set(_)) => {
                Ok(Some(Form::make(alloc, Part::Empty(ty.copy(alloc)?))?))
            }
            (Node::Single(element), TyView::Set(elements)) => {
                let Some(element) = Box::into_inner(element).fill(alloc, elements)? else {
                    return Ok(None);
                };
                Ok(Some(unary(alloc, UnOp::Single, element)?))
            }
            (Node::Pair(left, right), TyView::Pair(first, second)) => {
                let left = Box::into_inner(left).fill(alloc, first)?;
                let right = Box::into_inner(right).fill(alloc, second)?;
                both_made(alloc, BinOp::Maps, left, right)
            }
            (Node::Joined(join, left, right), _) if join.is_for(ty) => {
                let left = Box::into_inner(left).fill(alloc, ty)?;
                let right = Box::into_inner(right).fill(alloc, ty)?;
                both_made(alloc, join.op(), left, right)
            }
            _ => Ok(None),
        }
    }
}

// Whether the types are the same.
pub(crate) fn is_same(given: &Ty, asked: &Ty) -> bool
    ensures { result ≡ same_type given.now asked.now }
{
    given.equal(asked)
}

// The operator on both, where both are there.
fn both_made(
    alloc: Global,
    op: BinOp,
    left: Option<Form>,
    right: Option<Form>,
) -> Result<Option<Form>, Memory>
    ensures { IfOk result (λ f. f ≡ both_made op left right) }
{
    let (Some(left), Some(right)) = (left, right) else {
        return Ok(None);
    };
    Ok(Some(binary(alloc, op, left, right)?))
}

impl Join {
    /// The operator of formulas that it is.
    pub fn op(self) -> BinOp
        ensures { result ≡ joint_op (joint_of_join self) }
    {
        match self {
            Join::Union => BinOp::Union,
            Join::Intersection => BinOp::Inter,
            Join::Difference => BinOp::Minus,
            Join::Override => BinOp::Over,
        }
    }

    /// Whether it is there for values of the type: sets, and for `<+` relations.
    pub fn is_for(self, ty: &Ty) -> bool
        ensures { result ≡ joins (joint_of_join self) ty.now }
    {
        match (self, ty.view()) {
            (Join::Override, TyView::Set(elements)) => matches!(
                elements.view(),
                TyView::Pair(_, _)
            ),
            (_, TyView::Set(_)) => true,
            _ => false,
        }
    }
}
