// What an implementation has that is not B0, the part of the notation that has code.

ghost use Rattle.std.specs.Option.{option_copied};
ghost use Rattle.std.specs.Prelude.{◌≡◌, ◌+◌, ◌++◌, ◌∷◌, [], ◌&&◌, ◌||◌, List, Some, cond, map, IfOk};
ghost use Rattle.bk_raw.specs.Trees.RawTree.{trees_of, raw_apply, raw_infix};
ghost use Rattle.bk_raw.specs.Trees.SubTree.{sub_var, branch_and};
ghost use Rattle.bk_raw.specs.Meaning.Binders.{second};
ghost use Rattle.bk_raw.specs.Errors.Blame.{blame};
ghost use Rattle.bk_elab_terms.specs.Conjuncts.{shown_pair};
ghost use Rattle.bk_elab_terms.specs.Shown.{told};
ghost use Rattle.bk_elab_terms.specs.Visible.{meaning_of, typing_of, visible_names};
ghost use Rattle.bk_statics.specs.Components.{abstract_names, initialisation};
ghost use Rattle.bk_statics.specs.Executable as meant;
ghost use Rattle.bk_statics.specs.Plan.{body_scope, operations_of, scope};
ghost use Rattle.bk_statics.specs.ValueFaults.{is_there};
ghost use Rattle.bk_check_b0.specs.Executed.{executing, names_of, statement_by, branches_by, expression_by};
ghost use Rattle.bk_check_b0.specs.Executed.{condition_by, array_by, fill_sides, only, whole_told};
ghost use Rattle.bk_scope.specs.Shown.{branches_shown, component_shown, declared_shown, is_blank, placed_shown, plan_shown, variables_shown};
ghost use Rattle.bk_statics.specs.Typings.{target_in, type_at, type_named, variable_named};

use bk_elab_terms::{Fault, Standing, Visible, earlier};
use bk_form::{BinOp, Domain, Form, Ty, TyView, View};
use bk_io::Memory;
use bk_raw::{
    Constant, FaultKind, InfixOp, RawBranch, RawName, RawNode, RawSub, RawSubNode, RawTerm, WordOp,
};
use bk_scope::binders::{binder_count, last_of};
use bk_scope::component::{Blank, Component};
use bk_scope::number::ahead;
use bk_scope::places::place_of;
use bk_scope::plan::{Placed, Plan};
use bk_scope::sight::{bound, variable_of};
use bk_scope::types::is_flat;
use bk_scope::way::Typing;

// What is executed: the types of numbers, the arrays with the domains that they are declared with, the names in scope,
// and the first number of what is bound.
#[derive(Clone, Copy)]
struct Executing<'a> {
    typing: Typing<'a>,
    arrays: &'a [(u32, Form)],
    names: &'a [Visible<'a>],
    first: u32,
}

// The fault of what is not B0, unless the test holds.
fn not_executable(holds: bool, at: usize) -> Option<Fault>
    ensures { told result ≡ blame (meant.not_executable holds at) }
{
    if holds {
        return None;
    }
    Some(Fault {
        kind: FaultKind::NotB0,
        place: at,
    })
}

// What is inside a formula that is no B0, or where that is all B0, the formula.
fn or_whole(at: usize, within: Option<Fault>) -> Option<Fault>
    ensures { told result ≡ whole_told at (told within) }
{
    match within {
        Some(_) => within,
        None => not_executable(false, at),
    }
}

// The domain that an array is declared with.
fn domain_of(arrays: &[(u32, Form)], variable: u32) -> Option<&Form>
    ensures { option_copied result ≡ array_by arrays.now variable }
{
    for (array, domain) in arrays {
        if *array == variable {
            return Some(domain);
        }
    }
    None
}

// The first fault of an implementation.
pub fn executable_fault<'a>(
    typing: Typing<'a>,
    arrays: &'a [(u32, Form)],
    component: &Component<'_>,
    plan: &Plan<'_>,
    blank: &Blank,
) -> Result<Option<Fault>, Memory>
    requires blank { is_blank component.now.at blank.now }
    requires operations { map placed_shown plan.now.operations.items ≡
        operations_of (plan_shown plan.now) (component_shown component.now) }
    ensures { IfOk result (λ fault. told fault ≡ blame (meant.executable_in (executing typing.entry arrays.now)
        (plan_shown plan.now) (component_shown component.now))) }
{
    let declared = abstract_fault(component);
    let stored = stored_fault(typing, arrays, component, plan)?;
    let start = start_fault(typing, arrays, component, plan, blank)?;
    let operations = operations_fault(typing, arrays, plan)?;
    let inner = earlier(start, operations);
    let made = earlier(stored, inner);
    Ok(earlier(declared, made))
}

// That of the initialisation.
fn start_fault<'a>(
    typing: Typing<'a>,
    arrays: &'a [(u32, Form)],
    component: &Component<'_>,
    plan: &Plan<'_>,
    blank: &Blank,
) -> Result<Option<Fault>, Memory>
    requires { is_blank component.now.at blank.now }
    ensures { IfOk result (λ fault. told fault ≡ blame (meant.statement_faults (executing typing.entry arrays.now)
        (scope (plan_shown plan.now)) plan.now.binders_at (initialisation (component_shown component.now)))) }
{
    let names = plan.scope(typing.alloc)?;
    let scope = Executing {
        typing,
        arrays,
        names: &names,
        first: plan.binders_at,
    };
    match component.init {
        Some(init) => {
            let fault = scope.statement(init)?;
            Ok(fault)
        }
        None => {
            let fault = scope.statement(&blank.start)?;
            Ok(fault)
        }
    }
}

// That of VARIABLES.
fn abstract_fault(component: &Component<'_>) -> Option<Fault>
    ensures { told result ≡
        blame (meant.abstract_faults (abstract_names (component_shown component.now).variables)) }
{
    let mut fault = None;
    for variable in &component.variables {
        fault = earlier(
            fault,
            not_executable(variable.is_concrete, variable.name.at),
        );
    }
    fault
}

// That of variables that are neither scalars nor arrays.
fn stored_fault<'a>(
    typing: Typing<'a>,
    arrays: &'a [(u32, Form)],
    component: &Component<'_>,
    plan: &Plan<'_>,
) -> Result<Option<Fault>, Memory>
    ensures { IfOk result (λ fault. told fault ≡ blame (meant.stored_faults (executing typing.entry arrays.now)
        component.now.name.now.at (variables_shown component.now.variables.items) plan.now.variables_at
        (map declared_shown plan.now.variables.items))) }
{
    let mut fault = None;
    for (index, variable) in plan.variables.iter().enumerate() {
        let number = ahead(plan.variables_at, index)?;
        let stored = is_stored(typing, arrays, number);
        let place = place_of(component, *variable);
        fault = earlier(fault, not_executable(stored, place));
    }
    Ok(fault)
}

// Whether a number is that of a scalar or of an array.
fn is_stored(typing: Typing<'_>, arrays: &[(u32, Form)], number: u32) -> bool
    ensures { result ≡ (meant.is_scalar_option (typing_of typing.entry.types.now number) || is_there (array_by arrays.now number)) }
{
    is_flat(typing, number) || domain_of(arrays, number).is_some()
}

// That of the operations: outputs, inputs and bodies.
fn operations_fault<'a>(
    typing: Typing<'a>,
    arrays: &'a [(u32, Form)],
    plan: &Plan<'_>,
) -> Result<Option<Fault>, Memory>
    ensures { IfOk result (λ fault. told fault ≡ blame (meant.operations_executable (executing typing.entry arrays.now)
        (plan_shown plan.now) (map placed_shown plan.now.operations.items))) }
{
    let mut fault = None;
    for placed in &plan.operations {
        let operation = placed.operation;
        let outputs = output_scalars(typing, placed.outputs_at, &operation.outputs)?;
        let inputs = input_scalars(typing, &placed.inputs, &operation.inputs);
        let body = body_fault(typing, arrays, plan, placed)?;
        let inner = earlier(inputs, body);
        let own = earlier(outputs, inner);
        fault = earlier(fault, own);
    }
    Ok(fault)
}

// That of a body.
fn body_fault<'a>(
    typing: Typing<'a>,
    arrays: &'a [(u32, Form)],
    plan: &Plan<'_>,
    placed: &Placed<'_>,
) -> Result<Option<Fault>, Memory>
    ensures { IfOk result (λ fault. told fault ≡ blame (meant.statement_faults (executing typing.entry arrays.now)
        (body_scope (plan_shown plan.now) (placed_shown placed.now)) placed.now.binders_at placed.now.operation.now.body)) }
{
    let operation = placed.operation;
    let names = plan.body_scope(typing.alloc, placed)?;
    let scope = Executing {
        typing,
        arrays,
        names: &names,
        first: placed.binders_at,
    };
    let fault = scope.statement(&operation.body)?;
    Ok(fault)
}

// That of outputs that are no scalars.
fn output_scalars(
    typing: Typing<'_>,
    first: u32,
    outputs: &[RawName],
) -> Result<Option<Fault>, Memory>
    ensures { IfOk result (λ fault. (x : meant.Executing) → x.typing ≡ typing_of typing.entry.types.now →
        told fault ≡ blame (meant.output_scalars x first outputs.now)) }
{
    let mut fault = None;
    for (index, output) in outputs.iter().enumerate() {
        let number = ahead(first, index)?;
        let scalar = is_flat(typing, number);
        fault = earlier(fault, not_executable(scalar, output.at));
    }
    Ok(fault)
}

// That of inputs that are no scalars; these are their names in scope, in order.
fn input_scalars(typing: Typing<'_>, names: &[Visible<'_>], inputs: &[RawName]) -> Option<Fault>
    ensures { (x : meant.Executing) → x.typing ≡ typing_of typing.entry.types.now →
        told result ≡ blame (meant.input_scalars x (visible_names names.now) inputs.now) }
{
    let mut fault = None;
    for (index, input) in inputs.iter().enumerate() {
        let Some(name) = names.get(index) else {
            return fault;
        };
        let scalar = is_flat_name(typing, *name);
        fault = earlier(fault, not_executable(scalar, input.at));
    }
    fault
}

// Whether a name is that of a variable with a scalar type.
fn is_flat_name(typing: Typing<'_>, name: Visible<'_>) -> bool
    ensures { result ≡ meant.is_scalar_option (type_at (typing_of typing.entry.types.now) (target_in (meaning_of name.entry.meaning))) }
{
    match name.meaning {
        Standing::Variable(variable) => is_flat(typing, variable),
        _ => false,
    }
}

impl<'a> Executing<'a> {
    // What stands after a statement that binds so much.
    fn behind(self, count: usize) -> Result<Executing<'a>, Memory>
        ensures { IfOk result (λ x. x ≡ record self.entry { first = self.entry.first + count }) }
    {
        Ok(Executing {
            typing: self.typing,
            arrays: self.arrays,
            names: self.names,
            first: ahead(self.first, count)?,
        })
    }

    // ---- statements

    // The first fault of a statement: skip, `x := E`, `f(e) := E`, a fill, `S ; T`, BEGIN, VAR, IF, WHILE and ASSERT, whose
    // predicate is not executed; nor are a loop's invariant and variant.
    #[tactic(auto, using(bk_scope::proofs::SubSizes::parts_are_smaller, crate::proofs::Branching::branch_whole, bk_raw::proofs::Blamed::blames))]
    #[cycle(executing)]
    fn statement(&self, sub: &RawSub) -> Result<Option<Fault>, Memory>
        ensures { IfOk result (λ fault. told fault ≡ blame (statement_by self.now sub.now)) }
    {
        match &sub.node {
            RawSubNode::Skip => Ok(None),
            RawSubNode::Assign(names, terms) => self.assigned(sub.at, names, terms),
            RawSubNode::AssignAt(name, index, value) => {
                let array = not_executable(self.is_array(name.text.as_bytes()), sub.at);
                let one = self.expression(index)?;
                Ok(earlier(array, earlier(one, self.expression(value)?)))
            }
            RawSubNode::Begin(body) | RawSubNode::Assert(_, body) => self.statement(body),
            RawSubNode::If(test, first, others, last) => {
                self.branch(test, first, others, last_of(last))
            }
            RawSubNode::Var(names, body) => self.local(names, body),
            RawSubNode::While(test, body, _, _) => {
                let fault = self.condition(test)?;
                Ok(earlier(fault, self.statement(body)?))
            }
            RawSubNode::Sequence(left, right) => {
                let fault = self.statement(left)?;
                let behind = self.behind(binder_count(left)?)?;
                Ok(earlier(fault, behind.statement(right)?))
            }
            _ => Ok(not_executable(false, sub.at)),
        }
    }

    // That of a branch of IF, and of those after it.
    #[tactic(auto, using(bk_scope::proofs::SubSizes::parts_are_smaller, crate::proofs::Branching::branch_whole, bk_raw::proofs::Blamed::blames))]
    #[cycle(executing)]
    fn branch(
        &self,
        test: &RawTerm,
        first: &RawSub,
        others: &[RawBranch],
        last: Option<&RawSub>,
    ) -> Result<Option<Fault>, Memory>
        ensures { IfOk result (λ fault. told fault ≡ blame (branches_by self.now
            (branch_and test.now first.now (branches_shown others.now (option_copied last.entry))))) }
    {
        let fault = self.condition(test)?;
        let yes = self.statement(first)?;
        let behind = self.behind(binder_count(first)?)?;
        let rest = behind.branches(others, last)?;
        Ok(earlier(fault, earlier(yes, rest)))
    }

    // That of further branches.
    #[tactic(auto, using(bk_scope::proofs::SubSizes::parts_are_smaller, crate::proofs::Branching::branch_whole, bk_raw::proofs::Blamed::blames))]
    #[cycle(executing)]
    fn branches(
        &self,
        branches: &[RawBranch],
        last: Option<&RawSub>,
    ) -> Result<Option<Fault>, Memory>
        ensures { IfOk result (λ fault. told fault ≡
            blame (branches_by self.now (branches_shown branches.now (option_copied last.entry)))) }
    {
        let [branch, others @ ..] = branches else {
            return match last {
                Some(last) => self.statement(last),
                None => Ok(None),
            };
        };
        self.branch(&branch.condition, &branch.body, others, last)
    }

    // That of a body under locals.
    #[tactic(auto, using(bk_scope::proofs::SubSizes::parts_are_smaller, crate::proofs::Branching::branch_whole, bk_raw::proofs::Blamed::blames))]
    #[cycle(executing)]
    fn local(&self, names: &[RawName], body: &RawSub) -> Result<Option<Fault>, Memory>
        ensures { IfOk result (λ fault. told fault ≡ blame (meant.statement_in (executing self.now.typing self.now.arrays.now)
            (names_of self.now) self.now.first 0 (sub_var names.now body.now))) }
    {
        let inside = bound(self.typing.alloc, self.first, names, self.names)?;
        let inner = Executing {
            typing: self.typing,
            arrays: self.arrays,
            names: &inside,
            first: ahead(self.first, names.len())?,
        };
        inner.statement(body)
    }

    // That of an assignment at a byte, which is one of one variable.
    fn assigned(
        &self,
        at: usize,
        names: &[RawName],
        terms: &[RawTerm],
    ) -> Result<Option<Fault>, Memory>
        ensures { IfOk result (λ fault. told fault ≡ blame (meant.assigned_faults (executing self.now.typing self.now.arrays.now)
            (names_of self.now) at names.now (trees_of terms.now))) }
    {
        let [name] = names else {
            return Ok(not_executable(false, at));
        };
        let fault = self.assigned_one(at, name, terms)?;
        Ok(fault)
    }

    // That of an assignment to a name: a scalar is set to an expression, or an array is filled.
    #[tactic(auto, using(crate::proofs::Executing::assignments))]
    fn assigned_one(
        &self,
        at: usize,
        name: &RawName,
        terms: &[RawTerm],
    ) -> Result<Option<Fault>, Memory>
        ensures { IfOk result (λ fault. told fault ≡ blame (meant.assigned_faults (executing self.now.typing self.now.arrays.now)
            (names_of self.now) at (name.now ∷ []) (trees_of terms.now))) }
    {
        let Some(term) = only(terms) else {
            return Ok(not_executable(false, at));
        };
        let text = name.text.as_bytes();
        if self.is_scalar_name(text) {
            let fault = self.expression(term)?;
            return Ok(fault);
        }
        let filled = self.is_fill(text, term)?;
        Ok(not_executable(filled, at))
    }

    // ---- names and fills

    // Whether the name is that of a variable with a scalar type.
    fn is_scalar_name(&self, text: &[u8]) -> bool
        ensures { result ≡ meant.is_scalar_option (type_named (typing_of self.now.typing.types.now) (names_of self.now) text.now) }
    {
        match variable_of(self.names, text) {
            Some(variable) => is_flat(self.typing, variable),
            None => false,
        }
    }

    // The domain that the array of this name is declared with.
    fn array(&self, text: &[u8]) -> Option<&'a Form>
        ensures { option_copied result ≡ meant.array_of (executing self.now.typing self.now.arrays.now)
            (variable_named (names_of self.now) text.now) }
    {
        let variable = variable_of(self.names, text)?;
        domain_of(self.arrays, variable)
    }

    // Whether the name is that of an array.
    fn is_array(&self, text: &[u8]) -> bool
        ensures { result ≡ meant.is_array (executing self.now.typing self.now.arrays.now) (names_of self.now) text.now }
    {
        self.array(text).is_some()
    }

    // Whether the term is `D * {E}` for the array of this name, which is declared with D.
    fn is_fill(&self, text: &[u8], term: &RawTerm) -> Result<bool, Memory>
        ensures { IfOk result (λ b. b ≡ meant.is_fill (executing self.now.typing self.now.arrays.now) (names_of self.now)
            (meant.array_of (executing self.now.typing self.now.arrays.now) (variable_named (names_of self.now) text.now)) term.now) }
    {
        let Some(declared) = self.array(text) else {
            return Ok(false);
        };
        let Some((domain, value)) = fill_parts(term) else {
            return Ok(false);
        };
        let asked = self.typing.under(self.names).domain(domain)?;
        if !is_declared(declared, &asked.answer) {
            return Ok(false);
        }
        let filled = self.is_fill_value(value)?;
        Ok(filled)
    }

    // Whether a term is a literal within INT, TRUE, FALSE, an element, a constant or a scalar name.
    fn is_fill_value(&self, term: &RawTerm) -> Result<bool, Memory>
        ensures { IfOk result (λ b. b ≡ meant.is_fill_value (executing self.now.typing self.now.arrays.now) (names_of self.now) term.now) }
    {
        match &term.node {
            RawNode::Number(value) => Ok(self.is_within(*value)),
            RawNode::Constant(word) => Ok(is_literal_word(*word)),
            RawNode::Name(_) => self.gives_scalar(term),
            _ => Ok(false),
        }
    }

    // Whether a number is within INT.
    fn is_within(&self, value: i128) -> bool
        ensures { result ≡ meant.is_within (executing self.now.typing self.now.arrays.now) value }
    {
        let most = i128::from(self.typing.max);
        -most <= value && value <= most
    }

    // ---- types

    // The type that a term gives.
    fn type_given(&self, term: &RawTerm) -> Result<Option<Ty>, Memory>
        ensures { IfOk result (λ t. t ≡ meant.type_given (executing self.now.typing self.now.arrays.now) (names_of self.now) term.now) }
    {
        let asked = self.typing.under(self.names).value(term)?;
        Ok(second(asked.answer))
    }

    // Whether it gives a number.
    fn gives_int(&self, term: &RawTerm) -> Result<bool, Memory>
        ensures { IfOk result (λ b. b ≡ meant.gives_int (executing self.now.typing self.now.arrays.now) (names_of self.now) term.now) }
    {
        match self.type_given(term)? {
            Some(ty) => Ok(matches!(ty.view(), TyView::Int)),
            None => Ok(false),
        }
    }

    // Whether it gives a scalar.
    fn gives_scalar(&self, term: &RawTerm) -> Result<bool, Memory>
        ensures { IfOk result (λ b. b ≡ meant.gives_scalar (executing self.now.typing self.now.arrays.now) (names_of self.now) term.now) }
    {
        match self.type_given(term)? {
            Some(ty) => Ok(!matches!(ty.view(), TyView::Pair(_, _) | TyView::Set(_))),
            None => Ok(false),
        }
    }

    // ---- expressions and conditions

    // The first fault of an expression: literals within INT, constants, elements, TRUE, FALSE, scalar names, `f(e)`, `+`,
    // `-`, `*`, `/`, mod, unary minus, succ, pred and bool(C).
    #[tactic(auto, using(bk_elab_terms::proofs::Sizes::parts_are_smaller, bk_raw::proofs::Blamed::blames, crate::proofs::Executing::wholes))]
    #[cycle(expressions)]
    fn expression(&self, term: &RawTerm) -> Result<Option<Fault>, Memory>
        ensures { IfOk result (λ fault. told fault ≡ blame (expression_by self.now term.now)) }
    {
        match &term.node {
            RawNode::Number(value) => Ok(not_executable(self.is_within(*value), term.at)),
            RawNode::Constant(word) => Ok(not_executable(is_literal_word(*word), term.at)),
            RawNode::Name(_) => Ok(not_executable(self.gives_scalar(term)?, term.at)),
            RawNode::Negative(part) => self.expression(part),
            RawNode::Word(WordOp::Succ | WordOp::Pred, part) => self.expression(part),
            RawNode::Word(WordOp::BoolOf, part) => self.condition(part),
            RawNode::Infix(op, left, right) => {
                let calculates = self.calculates(*op, term)?;
                let both = self.expressions(left, right)?;
                Ok(unless_whole(calculates, term.at, both))
            }
            RawNode::Apply(function, index) => self.application(term.at, function, index),
            RawNode::Word(_, part) | RawNode::Inverse(part) => {
                Ok(or_whole(term.at, self.expression(part)?))
            }
            RawNode::Image(left, right)
            | RawNode::Composition(left, right)
            | RawNode::Pair(left, right) => Ok(or_whole(term.at, self.expressions(left, right)?)),
            RawNode::Extension(elements) => Ok(or_whole(term.at, self.all_expressions(elements)?)),
            _ => Ok(not_executable(false, term.at)),
        }
    }

    // That of two expressions.
    #[tactic(auto, using(bk_elab_terms::proofs::Sizes::parts_are_smaller, bk_raw::proofs::Blamed::blames, crate::proofs::Executing::wholes))]
    #[cycle(expressions)]
    fn expressions(&self, left: &RawTerm, right: &RawTerm) -> Result<Option<Fault>, Memory>
        ensures { IfOk result (λ fault. told fault ≡ blame (expression_by self.now left.now ++ expression_by self.now right.now)) }
    {
        let fault = self.expression(left)?;
        Ok(earlier(fault, self.expression(right)?))
    }

    // That of several expressions.
    #[tactic(auto, using(bk_elab_terms::proofs::Sizes::parts_are_smaller, bk_raw::proofs::Blamed::blames, crate::proofs::Executing::wholes))]
    #[cycle(expressions)]
    fn all_expressions(&self, terms: &[RawTerm]) -> Result<Option<Fault>, Memory>
        ensures { IfOk result (λ fault. told fault ≡ blame (meant.all_expression_faults
            (executing self.now.typing self.now.arrays.now) (names_of self.now) (trees_of terms.now))) }
    {
        let mut fault = None;
        for term in terms {
            let one = self.expression(term)?;
            fault = earlier(fault, one);
        }
        Ok(fault)
    }

    // That of `f(e)` at a byte.
    #[tactic(auto, using(bk_elab_terms::proofs::Sizes::parts_are_smaller, bk_raw::proofs::Blamed::blames, crate::proofs::Executing::wholes))]
    #[cycle(expressions)]
    fn application(
        &self,
        at: usize,
        function: &RawTerm,
        index: &RawTerm,
    ) -> Result<Option<Fault>, Memory>
        ensures { IfOk result (λ fault. told fault ≡ blame (meant.expression_in
            (executing self.now.typing self.now.arrays.now) (names_of self.now) at (raw_apply function.now index.now))) }
    {
        let RawNode::Name(name) = &function.node else {
            return Ok(or_whole(at, self.expressions(function, index)?));
        };
        let within = self.expression(index)?;
        if self.is_array(name.as_bytes()) {
            return Ok(within);
        }
        let own = not_executable(self.gives_scalar(function)?, function.at);
        Ok(or_whole(at, earlier(own, within)))
    }

    // The first fault of a condition: `=` and `/=` on scalars of one type, `<`, `<=`, `>`, `>=` on integers, `&`, `or`, `not`.
    #[tactic(auto, using(bk_elab_terms::proofs::Sizes::parts_are_smaller, bk_raw::proofs::Blamed::blames, crate::proofs::Executing::wholes))]
    #[cycle(expressions)]
    fn condition(&self, term: &RawTerm) -> Result<Option<Fault>, Memory>
        ensures { IfOk result (λ fault. told fault ≡ blame (condition_by self.now term.now)) }
    {
        match &term.node {
            RawNode::Word(WordOp::Not, part) => self.condition(part),
            RawNode::Infix(op, left, right) => self.comparison(term.at, *op, left, right),
            _ => Ok(not_executable(false, term.at)),
        }
    }

    // That of an operator between two sides at a byte.
    #[tactic(auto, using(bk_elab_terms::proofs::Sizes::parts_are_smaller, bk_raw::proofs::Blamed::blames, crate::proofs::Executing::wholes))]
    #[cycle(expressions)]
    fn comparison(
        &self,
        at: usize,
        op: InfixOp,
        left: &RawTerm,
        right: &RawTerm,
    ) -> Result<Option<Fault>, Memory>
        ensures { IfOk result (λ fault. told fault ≡ blame (meant.condition_in
            (executing self.now.typing self.now.arrays.now) (names_of self.now) at (raw_infix op left.now right.now))) }
    {
        if joins_conditions(op) {
            return self.conditions(left, right);
        }
        if self.compares(op, left, right)? {
            return self.expressions(left, right);
        }
        if is_implication(op) {
            return Ok(or_whole(at, self.conditions(left, right)?));
        }
        Ok(or_whole(at, self.expressions(left, right)?))
    }

    // That of two conditions.
    #[tactic(auto, using(bk_elab_terms::proofs::Sizes::parts_are_smaller, bk_raw::proofs::Blamed::blames, crate::proofs::Executing::wholes))]
    #[cycle(expressions)]
    fn conditions(&self, left: &RawTerm, right: &RawTerm) -> Result<Option<Fault>, Memory>
        ensures { IfOk result (λ fault. told fault ≡ blame (condition_by self.now left.now ++ condition_by self.now right.now)) }
    {
        let fault = self.condition(left)?;
        Ok(earlier(fault, self.condition(right)?))
    }

    // Whether a term with this operator calculates with numbers.
    fn calculates(&self, op: InfixOp, term: &RawTerm) -> Result<bool, Memory>
        ensures { IfOk result (λ b. b ≡ (meant.is_sum op
            && meant.gives_int (executing self.now.typing self.now.arrays.now) (names_of self.now) term.now)) }
    {
        if !is_sum(op) {
            return Ok(false);
        }
        let number = self.gives_int(term)?;
        Ok(number)
    }

    // Whether the operator compares what these sides give.
    fn compares(&self, op: InfixOp, left: &RawTerm, right: &RawTerm) -> Result<bool, Memory>
        ensures { IfOk result (λ b. b ≡ (meant.is_order op
            || (meant.is_equation op && (meant.gives_scalar (executing self.now.typing self.now.arrays.now) (names_of self.now) left.now
            && meant.gives_scalar (executing self.now.typing self.now.arrays.now) (names_of self.now) right.now)))) }
    {
        if is_order(op) {
            return Ok(true);
        }
        if !is_equation(op) {
            return Ok(false);
        }
        let scalars = self.are_scalars(left, right)?;
        Ok(scalars)
    }

    // Whether both terms give scalars.
    fn are_scalars(&self, left: &RawTerm, right: &RawTerm) -> Result<bool, Memory>
        ensures { IfOk result (λ b. b ≡ (meant.gives_scalar (executing self.now.typing self.now.arrays.now) (names_of self.now) left.now
            && meant.gives_scalar (executing self.now.typing self.now.arrays.now) (names_of self.now) right.now)) }
    {
        let one = self.gives_scalar(left)?;
        Ok(one && self.gives_scalar(right)?)
    }
}

// What is inside a formula, where the formula itself is B0; or else that, or the formula.
fn unless_whole(holds: bool, at: usize, within: Option<Fault>) -> Option<Fault>
    ensures { told result ≡ cond holds (told within) (whole_told at (told within)) }
{
    if holds {
        return within;
    }
    or_whole(at, within)
}

// D and E of `D * {E}`.
#[tactic(auto, using(crate::proofs::Executing::fills))]
fn fill_parts(term: &RawTerm) -> Option<(&RawTerm, &RawTerm)>
    ensures { shown_pair result ≡ fill_sides term.now }
{
    let RawNode::Infix(InfixOp::Times, domain, set) = &term.node else {
        return None;
    };
    let RawNode::Extension(elements) = &set.node else {
        return None;
    };
    let value = only(elements)?;
    Some((domain, value))
}

// The one term of a list of one.
fn only(terms: &[RawTerm]) -> Option<&RawTerm>
    ensures { option_copied result ≡ only terms.now }
{
    let [term] = terms else {
        return None;
    };
    Some(term)
}

// The type of a formula that has one.
fn second(answer: Option<(Form, Ty)>) -> Option<Ty>
    ensures { result ≡ second answer }
{
    match answer {
        Some((_, ty)) => Some(ty),
        None => None,
    }
}

// Whether what is read is the domain that an array is declared with.
fn is_declared(declared: &Form, domain: &Option<(Form, Ty)>) -> bool
    ensures { result ≡ meant.same_domain declared.now (meant.formula_in domain.now) }
{
    match domain {
        Some((form, _)) => same_domain(declared, form),
        None => false,
    }
}

// Whether a domain is the one that an array is declared with.
fn same_domain(declared: &Form, domain: &Form) -> bool
    ensures { result ≡ meant.same_domain declared.now (Some domain.now) }
{
    match (declared.view(), domain.view()) {
        (View::Bin(BinOp::Range, low, high), View::Bin(BinOp::Range, other, most)) => {
            same_bound(low, other) && same_bound(high, most)
        }
        (View::Name(Domain::Bool), View::Name(Domain::Bool)) => true,
        (View::Name(Domain::Enum(set)), View::Name(Domain::Enum(other))) => set == other,
        _ => false,
    }
}

// Whether two bounds are the same number or the same constant.
fn same_bound(bound: &Form, other: &Form) -> bool
    ensures { result ≡ meant.same_bound bound.now other.now }
{
    match (bound.view(), other.view()) {
        (View::Int(value), View::Int(same)) => value == same,
        (View::Var(constant), View::Var(same)) => constant == same,
        _ => false,
    }
}

// Whether it is TRUE, FALSE, MAXINT or MININT.
fn is_literal_word(word: Constant) -> bool
    ensures { result ≡ meant.is_literal_word word }
{
    matches!(
        word,
        Constant::True | Constant::False | Constant::MaxInt | Constant::MinInt
    )
}

// Whether it calculates with two numbers.
fn is_sum(op: InfixOp) -> bool
    ensures { result ≡ meant.is_sum op }
{
    matches!(
        op,
        InfixOp::Plus | InfixOp::Minus | InfixOp::Times | InfixOp::Divide | InfixOp::Mod
    )
}

// Whether it compares two numbers.
fn is_order(op: InfixOp) -> bool
    ensures { result ≡ meant.is_order op }
{
    matches!(
        op,
        InfixOp::Less | InfixOp::AtMost | InfixOp::Greater | InfixOp::AtLeast
    )
}

// Whether it is `=` or `/=`.
fn is_equation(op: InfixOp) -> bool
    ensures { result ≡ meant.is_equation op }
{
    matches!(op, InfixOp::Equal | InfixOp::NotEqual)
}

// Whether it is `&` or `or`.
fn joins_conditions(op: InfixOp) -> bool
    ensures { result ≡ meant.joins_conditions op }
{
    matches!(op, InfixOp::And | InfixOp::Or)
}

// Whether it is `=>` or `<=>`.
fn is_implication(op: InfixOp) -> bool
    ensures { result ≡ meant.is_implication op }
{
    matches!(op, InfixOp::Implies | InfixOp::Equivalent)
}
