// Substitutions on the way to being built: none is built that is too high.

ghost use Rattle.std.specs.Prelude.{◌≡◌, ◌+◌, ℕ, IfOk};
ghost use Rattle.bk_raw.specs.Trees.RawTree.{RawTree, RawTrees};
ghost use Rattle.bk_raw.specs.Trees.SubTree.{SubTree, SubNode, sub, sub_skip, sub_assign, sub_assign_at, sub_member, sub_such, sub_call};
ghost use Rattle.bk_raw.specs.Trees.SubTree.{sub_while, sub_choice, Branches as BranchTrees, Choices as ChoiceTrees, sub_height};
ghost use Rattle.bk_raw.specs.Codes.SubView.{sub_node_of, sub_of};
ghost use Rattle.bk_p_expr.specs.Pieces.{IsTerms};
ghost use Rattle.bk_p_sub.specs.Statements.{IsStatement, IsTerm, IsAround, IsBranches, IsChoices, head_node, joint_node, tested_node, word_of};

use crate::branches::{Branches, Choices};
use crate::term::Term;
use bk_io::Memory;
use bk_limits::GREATEST_TREE_HEIGHT;
use bk_ops::word;
use bk_p_expr::Terms;
use bk_raw::{RawBranch, RawName, RawSub, RawSubNode, RawTerm};
use std::alloc::Global;

/// A substitution with the height of its tree, or that one is written whose tree is too high.
#[derive(Drop)]
pub enum Statement {
    /// The substitution, and how many nodes lie on its longest way down, its terms included.
    Built(Box<RawSub>, usize),
    High,
}

/// What is built around one substitution.
#[derive(Drop)]
pub(crate) enum Around {
    Begin,
    Var(Vec<RawName>),
    /// A block with a predicate before its substitution.
    Under(Head, Term),
}

/// How a block begins whose predicate stands before its substitution.
#[derive(Drop)]
pub(crate) enum Head {
    Pre,
    Assert,
    Any(Vec<RawName>),
    Let(Vec<RawName>),
}

/// What stands between two substitutions.
#[derive(Clone, Copy)]
pub(crate) enum Joint {
    Parallel,
    Sequence,
}

/// Which word begins a test with branches.
#[derive(Clone, Copy)]
pub(crate) enum Test {
    If,
    Select,
}

/// The node as a substitution, where the highest of its parts is so high.
fn built(alloc: Global, at: usize, node: RawSubNode, height: usize) -> Result<Statement, Memory>
    ensures { IfOk result (λ r. (s : SubTree) → sub_of at node ≡ s → sub_height s ≡ height + 1 →
        IsStatement s r) }
{
    let whole = Box::new(alloc, RawSub { at, node })?;
    Ok(limited(whole, height))
}

/// The substitution, where the highest of its parts is so high.
fn limited(whole: Box<RawSub>, height: usize) -> Statement
    ensures { (s : SubTree) → whole.value ≡ s → sub_height s ≡ height + 1 → IsStatement s result }
{
    if height >= GREATEST_TREE_HEIGHT {
        return Statement::High;
    }
    Statement::Built(whole, height + 1)
}

impl Statement {
    /// `skip`.
    pub(crate) fn skip(alloc: Global, at: usize) -> Result<Statement, Memory>
        ensures { IfOk result (λ r. IsStatement (sub at sub_skip) r) }
    {
        built(alloc, at, RawSubNode::Skip, 0)
    }

    /// `x, y := e, f`.
    pub(crate) fn assign(
        alloc: Global,
        at: usize,
        names: Vec<RawName>,
        terms: Terms,
    ) -> Result<Statement, Memory>
        ensures { IfOk result (λ r. (us : RawTrees) → IsTerms us terms →
            IsStatement (sub at (sub_assign names.items us)) r) }
    {
        let Terms::Built(terms, height) = terms else {
            return Ok(Statement::High);
        };
        built(alloc, at, RawSubNode::Assign(names, terms), height)
    }

    /// `f(x) := e`.
    pub(crate) fn assign_at(
        alloc: Global,
        at: usize,
        name: RawName,
        place: Term,
        value: Term,
    ) -> Result<Statement, Memory>
        ensures { IfOk result (λ r. (x e : RawTree) → IsTerm x place → IsTerm e value →
            IsStatement (sub at (sub_assign_at name x e)) r) }
    {
        let Term::Built(place, one) = place else {
            return Ok(Statement::High);
        };
        let Term::Built(value, two) = value else {
            return Ok(Statement::High);
        };
        built(
            alloc,
            at,
            RawSubNode::AssignAt(name, Box::into_inner(place), Box::into_inner(value)),
            one.max(two),
        )
    }

    /// `x :: e`.
    pub(crate) fn member(
        alloc: Global,
        at: usize,
        name: RawName,
        set: Term,
    ) -> Result<Statement, Memory>
        ensures { IfOk result (λ r. (e : RawTree) → IsTerm e set → IsStatement (sub at (sub_member name e)) r) }
    {
        let Term::Built(set, height) = set else {
            return Ok(Statement::High);
        };
        built(
            alloc,
            at,
            RawSubNode::BecomesMember(name, Box::into_inner(set)),
            height,
        )
    }

    /// `x, y :( p )`.
    pub(crate) fn such(
        alloc: Global,
        at: usize,
        names: Vec<RawName>,
        predicate: Term,
    ) -> Result<Statement, Memory>
        ensures { IfOk result (λ r. (p : RawTree) → IsTerm p predicate →
            IsStatement (sub at (sub_such names.items p)) r) }
    {
        let Term::Built(predicate, height) = predicate else {
            return Ok(Statement::High);
        };
        built(
            alloc,
            at,
            RawSubNode::BecomesSuch(names, Box::into_inner(predicate)),
            height,
        )
    }

    /// `x, y <-- op(e, f)`.
    pub(crate) fn call(
        alloc: Global,
        at: usize,
        outputs: Vec<RawName>,
        operation: RawName,
        arguments: Terms,
    ) -> Result<Statement, Memory>
        ensures { IfOk result (λ r. (us : RawTrees) → IsTerms us arguments →
            IsStatement (sub at (sub_call outputs.items operation us)) r) }
    {
        let Terms::Built(arguments, height) = arguments else {
            return Ok(Statement::High);
        };
        built(
            alloc,
            at,
            RawSubNode::Call(outputs, operation, arguments),
            height,
        )
    }

    /// A block around this one.
    pub(crate) fn around(self, alloc: Global, at: usize, block: Around) -> Result<Statement, Memory>
        ensures { IfOk result (λ r. (s : SubTree) (form : SubTree → SubNode) → IsStatement s self →
            IsAround form block → IsStatement (sub at (form s)) r) }
    {
        let Statement::Built(body, height) = self else {
            return Ok(Statement::High);
        };
        match block {
            Around::Begin => built(alloc, at, RawSubNode::Begin(body), height),
            Around::Var(names) => built(alloc, at, RawSubNode::Var(names, body), height),
            Around::Under(head, test) => {
                let Term::Built(test, other) = test else {
                    return Ok(Statement::High);
                };
                built(
                    alloc,
                    at,
                    node_under(head, Box::into_inner(test), body),
                    other.max(height),
                )
            }
        }
    }

    /// This one and another with a sign between.
    pub(crate) fn with(
        self,
        alloc: Global,
        at: usize,
        joint: Joint,
        other: Statement,
    ) -> Result<Statement, Memory>
        ensures { IfOk result (λ r. (s t : SubTree) → IsStatement s self → IsStatement t other →
            IsStatement (sub at (joint_node joint s t)) r) }
    {
        let Statement::Built(left, one) = self else {
            return Ok(Statement::High);
        };
        let Statement::Built(right, two) = other else {
            return Ok(Statement::High);
        };
        built(alloc, at, node_joined(joint, left, right), one.max(two))
    }

    /// A test with this one after it, and its further branches.
    pub(crate) fn tested(
        self,
        alloc: Global,
        at: usize,
        test: Test,
        condition: Term,
        branches: Branches,
    ) -> Result<Statement, Memory>
        ensures { IfOk result (λ r. (p : RawTree) (s : SubTree) (bs : BranchTrees) → IsStatement s self →
            IsTerm p condition → IsBranches bs branches → IsStatement (sub at (tested_node test p s bs)) r) }
    {
        let Statement::Built(body, one) = self else {
            return Ok(Statement::High);
        };
        let Term::Built(condition, two) = condition else {
            return Ok(Statement::High);
        };
        let Branches::Built(all, last, three) = branches else {
            return Ok(Statement::High);
        };
        let node = node_tested(test, Box::into_inner(condition), body, all, last);
        built(alloc, at, node, one.max(two).max(three))
    }

    /// A choice of this one and further ones.
    pub(crate) fn choice(
        self,
        alloc: Global,
        at: usize,
        choices: Choices,
    ) -> Result<Statement, Memory>
        ensures { IfOk result (λ r. (s : SubTree) (cs : ChoiceTrees) → IsStatement s self →
            IsChoices cs choices → IsStatement (sub at (sub_choice s cs)) r) }
    {
        let Statement::Built(body, one) = self else {
            return Ok(Statement::High);
        };
        let Choices::Built(all, two) = choices else {
            return Ok(Statement::High);
        };
        built(alloc, at, RawSubNode::Choice(body, all), one.max(two))
    }

    /// A loop around this one.
    pub(crate) fn repeated(
        self,
        alloc: Global,
        at: usize,
        condition: Term,
        invariant: Term,
        variant: Term,
    ) -> Result<Statement, Memory>
        ensures { IfOk result (λ r. (p : RawTree) (s : SubTree) (i v : RawTree) → IsStatement s self →
            IsTerm p condition → IsTerm i invariant → IsTerm v variant →
            IsStatement (sub at (sub_while p s i v)) r) }
    {
        let Statement::Built(body, one) = self else {
            return Ok(Statement::High);
        };
        let Term::Built(condition, two) = condition else {
            return Ok(Statement::High);
        };
        let Term::Built(invariant, three) = invariant else {
            return Ok(Statement::High);
        };
        let Term::Built(variant, four) = variant else {
            return Ok(Statement::High);
        };
        let height = one.max(two).max(three.max(four));
        built(
            alloc,
            at,
            RawSubNode::While(
                Box::into_inner(condition),
                body,
                Box::into_inner(invariant),
                Box::into_inner(variant),
            ),
            height,
        )
    }
}

fn node_under(head: Head, test: RawTerm, body: Box<RawSub>) -> RawSubNode
    ensures { sub_node_of result ≡ head_node head test body.value }
{
    match head {
        Head::Pre => RawSubNode::Pre(test, body),
        Head::Assert => RawSubNode::Assert(test, body),
        Head::Any(names) => RawSubNode::Any(names, test, body),
        Head::Let(names) => RawSubNode::Let(names, test, body),
    }
}

fn node_joined(joint: Joint, left: Box<RawSub>, right: Box<RawSub>) -> RawSubNode
    ensures { sub_node_of result ≡ joint_node joint left.value right.value }
{
    match joint {
        Joint::Parallel => RawSubNode::Parallel(left, right),
        Joint::Sequence => RawSubNode::Sequence(left, right),
    }
}

fn node_tested(
    test: Test,
    condition: RawTerm,
    body: Box<RawSub>,
    branches: Vec<RawBranch>,
    last: Option<Box<RawSub>>,
) -> RawSubNode
    ensures { (bs : BranchTrees) (height : ℕ) → IsBranches bs (Branches.Built branches last height) →
        sub_node_of result ≡ tested_node test condition body.value bs }
{
    match test {
        Test::If => RawSubNode::If(condition, body, branches, last),
        Test::Select => RawSubNode::Select(condition, body, branches, last),
    }
}

impl Test {
    /// The word before a further test.
    pub(crate) fn word(self) -> u16
        ensures { result ≡ word_of self }
    {
        match self {
            Test::If => word::ELSIF,
            Test::Select => word::WHEN,
        }
    }
}
