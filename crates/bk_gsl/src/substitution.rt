// Substitutions.

ghost use Rattle.std.specs.Prelude.{◌≡◌, IfOk};
ghost use Rattle.bk_gsl.specs.Substitution.{skip, assign, pre, guard, choice, if_else, any, seq, par, assert, becomes_such, loop};
ghost use Rattle.bk_gsl.specs.Codes.SubView.{sub_view};

use bk_form::Form;
use bk_io::Memory;
use std::alloc::Global;
use std::marker::Model;
use std::rc::Rc;

/// A generalized substitution, as in the B-Book, over variables by their numbers. Clauses see the mathematical
/// substitution. Match on `&*sub.node`; the constructors make one of its parts. What it is made of is shared, so a copy
/// takes no memory of its size.
#[cycle(sub)]
#[derive(Drop)]
pub struct Sub {
    pub node: Rc<SubNode>,
}

/// What a substitution is, with its parts.
#[cycle(sub)]
#[derive(Drop)]
pub enum SubNode {
    /// `skip`: nothing changes.
    Skip,
    /// `x, y := E, F`: several variables at once, each with its term.
    Assign(Vec<(u32, Form)>),
    /// `PRE P THEN S END`.
    Pre(Form, Sub),
    /// `SELECT P THEN S END`: no run where `P` is false.
    Guard(Form, Sub),
    /// `CHOICE S OR T END`.
    Choice(Sub, Sub),
    /// `IF P THEN S ELSE T END`.
    If(Form, Sub, Sub),
    /// `VAR x IN S END`, the local variables with any values of their types at the start.
    Any(Vec<u32>, Sub),
    /// `S ; T`.
    Seq(Sub, Sub),
    /// `S || T`.
    Par(Sub, Sub),
    /// `WHILE test DO body INVARIANT invariant VARIANT variant END`.
    While {
        test: Form,
        body: Sub,
        invariant: Form,
        variant: Form,
    },
    /// `ASSERT P THEN S END`.
    Assert(Form, Sub),
    /// `x :(P)`: each written variable with the number that stands for its old value in `P`.
    BecomesSuch(Vec<(u32, u32)>, Form),
}

impl Model for Sub {
    ghost use Rattle.bk_gsl.specs.Substitution.{Substitution};
    ghost use Rattle.bk_gsl.specs.Codes.SubCodes.{coded_substitution};
    ghost use Rattle.bk_gsl.specs.SubSize.{substitution_size};

    ghost Value = { Substitution };

    ghost coded = { coded_substitution };

    ghost use Rattle.bk_gsl.specs.Codes.SubView.{sub_view};

    ghost view = { λ s. sub_view s.node.value };

    ghost size = { substitution_size };

    ghost use Rattle.bk_gsl.specs.Codes.SubFalls.{sub_falls};

    ghost size_decreases = { λ s h. sub_falls s.node.value };
}

impl Sub {
    /// The substitution of these parts.
    pub fn make(alloc: Global, node: SubNode) -> Result<Sub, Memory>
        ensures { IfOk result (λ s. s ≡ sub_view node) }
    {
        Ok(Sub {
            node: Rc::new(alloc, node)?,
        })
    }

    /// `skip`.
    pub fn skip(alloc: Global) -> Result<Sub, Memory>
        ensures { IfOk result (λ s. s ≡ skip) }
    {
        Sub::make(alloc, SubNode::Skip)
    }

    /// Several variables at once, each with its term.
    pub fn assign(alloc: Global, terms: Vec<(u32, Form)>) -> Result<Sub, Memory>
        ensures { IfOk result (λ s. s ≡ assign terms.items) }
    {
        Sub::make(alloc, SubNode::Assign(terms))
    }

    /// `PRE condition THEN body END`.
    pub fn pre(alloc: Global, condition: Form, body: Sub) -> Result<Sub, Memory>
        ensures { IfOk result (λ s. s ≡ pre condition body) }
    {
        Sub::make(alloc, SubNode::Pre(condition, body))
    }

    /// `SELECT condition THEN body END`.
    pub fn guard(alloc: Global, condition: Form, body: Sub) -> Result<Sub, Memory>
        ensures { IfOk result (λ s. s ≡ guard condition body) }
    {
        Sub::make(alloc, SubNode::Guard(condition, body))
    }

    /// `CHOICE first OR second END`.
    pub fn choice(alloc: Global, first: Sub, second: Sub) -> Result<Sub, Memory>
        ensures { IfOk result (λ s. s ≡ choice first second) }
    {
        Sub::make(alloc, SubNode::Choice(first, second))
    }

    /// `IF test THEN yes ELSE no END`.
    pub fn if_else(alloc: Global, test: Form, yes: Sub, no: Sub) -> Result<Sub, Memory>
        ensures { IfOk result (λ s. s ≡ if_else test yes no) }
    {
        Sub::make(alloc, SubNode::If(test, yes, no))
    }

    /// `VAR locals IN body END`.
    pub fn any(alloc: Global, locals: Vec<u32>, body: Sub) -> Result<Sub, Memory>
        ensures { IfOk result (λ s. s ≡ any locals.items body) }
    {
        Sub::make(alloc, SubNode::Any(locals, body))
    }

    /// `first ; second`.
    pub fn seq(alloc: Global, first: Sub, second: Sub) -> Result<Sub, Memory>
        ensures { IfOk result (λ s. s ≡ seq first second) }
    {
        Sub::make(alloc, SubNode::Seq(first, second))
    }

    /// `left || right`.
    pub fn par(alloc: Global, left: Sub, right: Sub) -> Result<Sub, Memory>
        ensures { IfOk result (λ s. s ≡ par left right) }
    {
        Sub::make(alloc, SubNode::Par(left, right))
    }

    /// `WHILE test DO body INVARIANT invariant VARIANT variant END`.
    pub fn while_loop(
        alloc: Global,
        test: Form,
        body: Sub,
        invariant: Form,
        variant: Form,
    ) -> Result<Sub, Memory>
        ensures { IfOk result (λ s. s ≡ loop test body invariant variant) }
    {
        let node = SubNode::While {
            test,
            body,
            invariant,
            variant,
        };
        Sub::make(alloc, node)
    }

    /// `ASSERT condition THEN body END`.
    pub fn assertion(alloc: Global, condition: Form, body: Sub) -> Result<Sub, Memory>
        ensures { IfOk result (λ s. s ≡ assert condition body) }
    {
        Sub::make(alloc, SubNode::Assert(condition, body))
    }

    /// `x :(predicate)`: each written variable with the number that stands for its old value.
    pub fn becomes_such(
        alloc: Global,
        pairs: Vec<(u32, u32)>,
        predicate: Form,
    ) -> Result<Sub, Memory>
        ensures { IfOk result (λ s. s ≡ becomes_such pairs.items predicate) }
    {
        Sub::make(alloc, SubNode::BecomesSuch(pairs, predicate))
    }

    /// The same substitution again.
    pub fn copy(&self, _alloc: Global) -> Result<Sub, Memory>
        ensures { IfOk result (λ s. s ≡ self.now) }
    {
        Ok(Sub {
            node: self.node.clone()?,
        })
    }
}
