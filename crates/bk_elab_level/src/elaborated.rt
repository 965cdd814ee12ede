// What a written substitution reads as.

ghost use Rattle.std.specs.Option.{option_copied};
ghost use Rattle.std.specs.Prelude.{◌≡◌, ◌++◌, [], true, IfOk, OnOk};
ghost use Rattle.bk_form.specs.Formula.{btrue, unary, binary};
ghost use Rattle.bk_form.specs.Role.{same_type};
ghost use Rattle.bk_form.specs.declared.operator.UnOp.TheVariants.{Not as Negation};
ghost use Rattle.bk_gsl.specs.Substitution.{guard};
ghost use Rattle.bk_raw.specs.Trees.RawTree.{trees_of};
ghost use Rattle.bk_raw.specs.Trees.SubTree.{sub_assign, sub_assign_at, sub_member, sub_such, sub_any, sub_var, sub_while, branch_and};
ghost use Rattle.bk_raw.specs.Codes.SubView.{choices_of};
ghost use Rattle.bk_elab_terms.specs.Visible.{typing_of, visible_names};
ghost use Rattle.bk_statics.specs.Elaborated as meant;
ghost use Rattle.bk_elab_level.specs.Read.{read_by, behind_by, node_read, else_by, choices_by, selected_by, condition_by, term_by, chosen_by};
ghost use Rattle.bk_scope.specs.Shown.{branches_shown, target_shown};
ghost use Rattle.bk_statics.specs.Typings.{interval, number_of, or_else, predicate_read, target, term_read, type_at};

use bk_bind::{binary, unary};
use bk_elab_terms::Visible;
use bk_form::{BinOp, Form, Part, Ty, UnOp};
use bk_gsl::Sub;
use bk_io::Memory;
use bk_raw::{RawBranch, RawName, RawSub, RawSubNode, RawTerm};
use bk_scope::binders::{binder_count, last_of};
use bk_scope::number::ahead;
use bk_scope::pairs::push_pair;
use bk_scope::sight::{Target, bound, bound_texts, joined, old_texts, target_named};
use bk_scope::types::parts_of;
use bk_scope::way::Typing;
use std::alloc::Global;

/// What a substitution is read by: the types of numbers, the names of the level above, which invariants and variants of
/// loops see, the names in scope, and the first number of what it binds.
#[derive(Clone, Copy)]
pub struct Elaboration<'a> {
    pub typing: Typing<'a>,
    pub above: &'a [Visible<'a>],
    pub names: &'a [Visible<'a>],
    pub first: u32,
}

impl<'a> Elaboration<'a> {
    // The place after a substitution, which has bound its numbers.
    fn behind(self, sub: &RawSub) -> Result<Elaboration<'a>, Memory>
        ensures { IfOk result (λ e. e ≡ behind_by self.entry sub.now) }
    {
        let count = binder_count(sub)?;
        Ok(Elaboration {
            typing: self.typing,
            above: self.above,
            names: self.names,
            first: ahead(self.first, count)?,
        })
    }

    // What a substitution reads as.
    #[tactic(auto, using(bk_scope::proofs::SubSizes::parts_are_smaller, crate::proofs::Branching::branch_whole))]
    #[cycle(elaborating)]
    pub fn substitution(&self, sub: &RawSub) -> Result<Sub, Memory>
        ensures { IfOk result (λ s. s ≡ read_by self.now sub.now) }
    {
        let alloc = self.typing.alloc;
        match &sub.node {
            RawSubNode::Skip | RawSubNode::Call(_, _, _) => Sub::skip(alloc),
            RawSubNode::Assign(names, terms) => self.assignment(names, terms),
            RawSubNode::AssignAt(name, index, value) => self.element(name, index, value),
            RawSubNode::BecomesMember(name, domain) => self.member(name, domain),
            RawSubNode::BecomesSuch(names, predicate) => self.such(names, predicate),
            RawSubNode::Begin(body) => self.substitution(body),
            RawSubNode::Pre(predicate, body) => {
                let (condition, body) = self.conditioned(predicate, body)?;
                Sub::pre(alloc, condition, body)
            }
            RawSubNode::Assert(predicate, body) => {
                let (condition, body) = self.conditioned(predicate, body)?;
                Sub::assertion(alloc, condition, body)
            }
            RawSubNode::If(predicate, first, others, last) => {
                self.choice_by(predicate, first, others, last_of(last))
            }
            RawSubNode::Choice(first, others) => {
                let before = self.substitution(first)?;
                self.choices(before, first, others)
            }
            RawSubNode::Select(predicate, first, others, last) => {
                let (not, before) = self.branch(predicate, first)?;
                self.selected(not, before, first, others, last_of(last))
            }
            RawSubNode::Any(names, predicate, body) | RawSubNode::Let(names, predicate, body) => {
                self.guarded(names, predicate, body)
            }
            RawSubNode::Var(names, body) => self.local(names, body),
            RawSubNode::While(test, body, invariant, variant) => {
                self.repetition(test, body, invariant, variant)
            }
            RawSubNode::Parallel(left, right) => {
                let (one, other) = self.both(left, right)?;
                Sub::par(alloc, one, other)
            }
            RawSubNode::Sequence(left, right) => {
                let (one, other) = self.both(left, right)?;
                Sub::seq(alloc, one, other)
            }
        }
    }

    // Two substitutions, the second after the first.
    #[tactic(auto, using(bk_scope::proofs::SubSizes::parts_are_smaller, crate::proofs::Branching::branch_whole))]
    #[cycle(elaborating)]
    fn both(&self, left: &RawSub, right: &RawSub) -> Result<(Sub, Sub), Memory>
        ensures { IfOk result (λ p. (p.0 ≡ read_by self.now left.now)
            × (p.1 ≡ read_by (behind_by self.now left.now) right.now)) }
    {
        let behind = self.behind(left)?;
        let one = self.substitution(left)?;
        Ok((one, behind.substitution(right)?))
    }

    // A condition and the substitution under it.
    #[tactic(auto, using(bk_scope::proofs::SubSizes::parts_are_smaller, crate::proofs::Branching::branch_whole))]
    #[cycle(elaborating)]
    fn conditioned(&self, predicate: &RawTerm, body: &RawSub) -> Result<(Form, Sub), Memory>
        ensures { IfOk result (λ p. (p.0 ≡ condition_by self.now predicate.now) × (p.1 ≡ read_by self.now body.now)) }
    {
        let condition = self.predicate(predicate)?;
        Ok((condition, self.substitution(body)?))
    }

    // A branch of SELECT: the negation of its guard, and the guarded substitution.
    #[tactic(auto, using(bk_scope::proofs::SubSizes::parts_are_smaller, crate::proofs::Branching::branch_whole))]
    #[cycle(elaborating)]
    fn branch(&self, predicate: &RawTerm, body: &RawSub) -> Result<(Form, Sub), Memory>
        ensures { IfOk result (λ p. (p.0 ≡ unary Negation (condition_by self.now predicate.now))
            × (p.1 ≡ guard (condition_by self.now predicate.now) (read_by self.now body.now))) }
    {
        let alloc = self.typing.alloc;
        let (condition, body) = self.conditioned(predicate, body)?;
        let not = unary_of(alloc, UnOp::Not, condition.copy(alloc)?)?;
        Ok((not, Sub::guard(alloc, condition, body)?))
    }

    // IF: ELSIF nests, and a missing ELSE does nothing.
    #[tactic(auto, using(bk_scope::proofs::SubSizes::parts_are_smaller, crate::proofs::Branching::branch_whole))]
    #[cycle(elaborating)]
    fn choice_by(
        &self,
        predicate: &RawTerm,
        first: &RawSub,
        others: &[RawBranch],
        last: Option<&RawSub>,
    ) -> Result<Sub, Memory>
        ensures { IfOk result (λ s. s ≡ else_by self.now
            (branch_and predicate.now first.now (branches_shown others.now (option_copied last.entry)))) }
    {
        let behind = self.behind(first)?;
        let (condition, yes) = self.conditioned(predicate, first)?;
        let no = behind.else_part(others, last)?;
        Sub::if_else(self.typing.alloc, condition, yes, no)
    }

    // What IF does where no condition before these branches is true.
    #[tactic(auto, using(bk_scope::proofs::SubSizes::parts_are_smaller, crate::proofs::Branching::branch_whole))]
    #[cycle(elaborating)]
    fn else_part(&self, branches: &[RawBranch], last: Option<&RawSub>) -> Result<Sub, Memory>
        ensures { IfOk result (λ s. s ≡ else_by self.now (branches_shown branches.now (option_copied last.entry))) }
    {
        let [branch, others @ ..] = branches else {
            return match last {
                Some(last) => self.substitution(last),
                None => Sub::skip(self.typing.alloc),
            };
        };
        self.choice_by(&branch.condition, &branch.body, others, last)
    }

    // The choice of what is read so far and these, joined to the left. They stand after `previous`.
    #[tactic(auto, using(bk_scope::proofs::SubSizes::parts_are_smaller, crate::proofs::Branching::branch_whole))]
    #[cycle(elaborating)]
    fn choices(&self, before: Sub, previous: &RawSub, choices: &[RawSub]) -> Result<Sub, Memory>
        ensures { IfOk result (λ s. s ≡ choices_by (behind_by self.now previous.now) before (choices_of choices.now)) }
    {
        let [choice, others @ ..] = choices else {
            return Ok(before);
        };
        let behind = self.behind(previous)?;
        let one = behind.substitution(choice)?;
        let both = Sub::choice(self.typing.alloc, before, one)?;
        behind.choices(both, choice, others)
    }

    // The same of guarded branches; ELSE is guarded by the negations of all guards, joined to the left.
    #[tactic(auto, using(bk_scope::proofs::SubSizes::parts_are_smaller, crate::proofs::Branching::branch_whole))]
    #[cycle(elaborating)]
    fn selected(
        &self,
        nots: Form,
        before: Sub,
        previous: &RawSub,
        branches: &[RawBranch],
        last: Option<&RawSub>,
    ) -> Result<Sub, Memory>
        ensures { IfOk result (λ s. s ≡ selected_by (behind_by self.now previous.now) nots before
            (branches_shown branches.now (option_copied last.entry))) }
    {
        let alloc = self.typing.alloc;
        let behind = self.behind(previous)?;
        let [branch, others @ ..] = branches else {
            let Some(last) = last else {
                return Ok(before);
            };
            let guarded = Sub::guard(alloc, nots, behind.substitution(last)?)?;
            return Sub::choice(alloc, before, guarded);
        };
        let (not, guarded) = behind.branch(&branch.condition, &branch.body)?;
        let all = binary_of(alloc, BinOp::And, nots, not)?;
        let both = Sub::choice(alloc, before, guarded)?;
        behind.selected(all, both, &branch.body, others, last)
    }

    // ANY and LET: a guarded substitution under locals.
    #[tactic(auto, using(bk_scope::proofs::SubSizes::parts_are_smaller, crate::proofs::Branching::branch_whole))]
    #[cycle(elaborating)]
    fn guarded(&self, names: &[RawName], predicate: &RawTerm, body: &RawSub) -> Result<Sub, Memory>
        ensures { IfOk result (λ s. s ≡ node_read self.now (sub_any names.now predicate.now body.now)) }
    {
        let alloc = self.typing.alloc;
        let inside = bound(alloc, self.first, names, self.names)?;
        let inner = Elaboration {
            typing: self.typing,
            above: self.above,
            names: &inside,
            first: ahead(self.first, names.len())?,
        };
        let (condition, body) = inner.conditioned(predicate, body)?;
        let guarded = Sub::guard(alloc, condition, body)?;
        Sub::any(alloc, numbers(alloc, self.first, names.len())?, guarded)
    }

    // VAR: a substitution under locals.
    #[tactic(auto, using(bk_scope::proofs::SubSizes::parts_are_smaller, crate::proofs::Branching::branch_whole))]
    #[cycle(elaborating)]
    fn local(&self, names: &[RawName], body: &RawSub) -> Result<Sub, Memory>
        ensures { IfOk result (λ s. s ≡ node_read self.now (sub_var names.now body.now)) }
    {
        let alloc = self.typing.alloc;
        let inside = bound(alloc, self.first, names, self.names)?;
        let inner = Elaboration {
            typing: self.typing,
            above: self.above,
            names: &inside,
            first: ahead(self.first, names.len())?,
        };
        let body = inner.substitution(body)?;
        Sub::any(alloc, numbers(alloc, self.first, names.len())?, body)
    }

    // WHILE, whose invariant and variant see the variables of the level above too.
    #[tactic(auto, using(bk_scope::proofs::SubSizes::parts_are_smaller, crate::proofs::Branching::branch_whole))]
    #[cycle(elaborating)]
    fn repetition(
        &self,
        test: &RawTerm,
        body: &RawSub,
        invariant: &RawTerm,
        variant: &RawTerm,
    ) -> Result<Sub, Memory>
        ensures { IfOk result (λ s. s ≡ node_read self.now (sub_while test.now body.now invariant.now variant.now)) }
    {
        let alloc = self.typing.alloc;
        let (condition, body) = self.conditioned(test, body)?;
        let names = joined(alloc, self.names, self.above)?;
        let stated = predicate_form(self.typing, &names, invariant)?;
        let counted = match term_form(self.typing, &names, &Ty::int(), variant)? {
            Some(form) => form,
            None => Form::make(alloc, Part::Int(0))?,
        };
        Sub::while_loop(alloc, condition, body, stated, counted)
    }

    // ---- formulas

    // What a predicate reads as; what has none is refused.
    fn predicate(&self, predicate: &RawTerm) -> Result<Form, Memory>
        ensures { IfOk result (λ f. f ≡ condition_by self.now predicate.now) }
    {
        predicate_form(self.typing, self.names, predicate)
    }

    // What a written name is.
    fn target_named(&self, name: &RawName) -> Target
        ensures { target_shown result ≡ target (visible_names self.now.names.now) name.now.text }
    {
        target_named(self.names, name.text.as_bytes())
    }

    // The type of a written name, if it is a variable's that has one.
    fn type_of(&self, name: &RawName) -> Result<Option<Ty>, Memory>
        ensures { IfOk result (λ t. t ≡ type_at (typing_of self.now.typing.types.now)
            (target (visible_names self.now.names.now) name.now.text)) }
    {
        match self.target_named(name).variable() {
            Some(variable) => self.typing.of(variable),
            None => Ok(None),
        }
    }

    // ---- assignments

    // `x, y := E, F`.
    fn assignment(&self, names: &[RawName], terms: &[RawTerm]) -> Result<Sub, Memory>
        ensures { IfOk result (λ s. s ≡ node_read self.now (sub_assign names.now (trees_of terms.now))) }
    {
        let mut pairs = Vec::new(self.typing.alloc);
        for (index, name) in names.iter().enumerate() {
            let Some(term) = terms.get(index) else {
                return Sub::assign(self.typing.alloc, pairs);
            };
            let form = self.assigned(name, term)?;
            push_pair(&mut pairs, self.target_named(name).number(), form)?;
        }
        Sub::assign(self.typing.alloc, pairs)
    }

    // The term for a written variable, where it takes the variable's type.
    fn assigned(&self, name: &RawName, term: &RawTerm) -> Result<Option<Form>, Memory>
        ensures { IfOk result (λ f. f ≡ term_by self.now (type_at (typing_of self.now.typing.types.now)
            (target (visible_names self.now.names.now) name.now.text)) term.now) }
    {
        match self.type_of(name)? {
            Some(ty) => term_form(self.typing, self.names, &ty, term),
            None => Ok(None),
        }
    }

    // `f(e) := v`.
    fn element(&self, name: &RawName, index: &RawTerm, value: &RawTerm) -> Result<Sub, Memory>
        ensures { IfOk result (λ s. s ≡ node_read self.now (sub_assign_at name.now index.now value.now)) }
    {
        let Some(ty) = self.type_of(name)? else {
            return Sub::skip(self.typing.alloc);
        };
        let Some((first, second)) = parts_of(&ty) else {
            return Sub::skip(self.typing.alloc);
        };
        let index = term_form(self.typing, self.names, first, index)?;
        let value = term_form(self.typing, self.names, second, value)?;
        overridden(
            self.typing.alloc,
            self.target_named(name).number(),
            index,
            value,
        )
    }

    // `x :: E` is ANY z WHERE z : E THEN x := z.
    fn member(&self, name: &RawName, domain: &RawTerm) -> Result<Sub, Memory>
        ensures { IfOk result (λ s. s ≡ node_read self.now (sub_member name.now domain.now)) }
    {
        let alloc = self.typing.alloc;
        let chosen = self.chosen(name, domain)?;
        Sub::any(alloc, numbers(alloc, self.first, 1)?, chosen)
    }

    // z : E ==> x := z, where E is a domain over the type of x and z.
    fn chosen(&self, name: &RawName, domain: &RawTerm) -> Result<Sub, Memory>
        ensures { IfOk result (λ s. s ≡ chosen_by self.now name.now domain.now) }
    {
        let asked = self.typing.under(self.names).domain(domain)?;
        self.chosen_in(name, asked.answer)
    }

    // The same, where the domain is read.
    fn chosen_in(&self, name: &RawName, domain: Option<(Form, Ty)>) -> Result<Sub, Memory>
        ensures { IfOk result (λ s. s ≡ meant.chosen_in (typing_of self.now.typing.types.now)
            (number_of (target (visible_names self.now.names.now) name.now.text))
            (type_at (typing_of self.now.typing.types.now) (target (visible_names self.now.names.now) name.now.text)) self.now.first domain) }
    {
        let alloc = self.typing.alloc;
        let Some((form, elements)) = domain else {
            return nothing_chosen(alloc);
        };
        let own = self.type_of(name)?;
        let taken = self.typing.of(self.first)?;
        if !are_one_type(&own, &taken, &elements) {
            return nothing_chosen(alloc);
        }
        chosen_from(alloc, self.target_named(name).number(), self.first, form)
    }

    // `x, y :(P)`: each written variable with the number of its old value.
    fn such(&self, names: &[RawName], predicate: &RawTerm) -> Result<Sub, Memory>
        ensures { IfOk result (λ s. s ≡ node_read self.now (sub_such names.now predicate.now)) }
    {
        let alloc = self.typing.alloc;
        let texts = old_texts(alloc, names)?;
        let inside = bound_texts(alloc, self.first, &texts, self.names)?;
        let stated = predicate_form(self.typing, &inside, predicate)?;
        let mut pairs = Vec::new(alloc);
        for (index, name) in names.iter().enumerate() {
            pairs.push((self.target_named(name).number(), ahead(self.first, index)?))?;
        }
        Sub::becomes_such(alloc, pairs, stated)
    }
}

// The formula of a predicate under these names; what has none is refused.
pub fn predicate_form(
    typing: Typing<'_>,
    names: &[Visible<'_>],
    predicate: &RawTerm,
) -> Result<Form, Memory>
    ensures { IfOk result (λ f. f ≡ predicate_read typing.entry.max (typing_of typing.entry.types.now)
        (visible_names names.now) predicate.now) }
{
    let asked = typing.under(names).predicate(predicate)?;
    let form = or_true(typing.alloc, asked.answer)?;
    Ok(form)
}

// The formula of a term in a place that asks a type, if it takes the type.
fn term_form(
    typing: Typing<'_>,
    names: &[Visible<'_>],
    ty: &Ty,
    term: &RawTerm,
) -> Result<Option<Form>, Memory>
    ensures { IfOk result (λ f. f ≡ term_read typing.entry.max (typing_of typing.entry.types.now)
        (visible_names names.now) ty.now term.now) }
{
    let asked = typing.under(names).of_type(term, ty)?;
    Ok(asked.answer)
}

// The formula, or `btrue` where there is none.
fn or_true(alloc: Global, form: Option<Form>) -> Result<Form, Memory>
    ensures { IfOk result (λ f. f ≡ or_else btrue form) }
{
    match form {
        Some(form) => Ok(form),
        None => Form::make(alloc, Part::True),
    }
}

// So many numbers from one on.
pub fn numbers(alloc: Global, first: u32, count: usize) -> Result<Vec<u32>, Memory>
    ensures { IfOk result (λ ns. ns.items ≡ interval first count) }
{
    let mut found = Vec::new(alloc);
    for index in 0..count {
        found.push(ahead(first, index)?)?;
    }
    Ok(found)
}

// Whether both have the type over which a domain ranges.
fn are_one_type(own: &Option<Ty>, taken: &Option<Ty>, elements: &Ty) -> bool
    ensures { result ≡ meant.all_one_type own.now taken.now elements.now }
{
    match (own, taken) {
        (Some(own), Some(taken)) => is_same(own, elements) && is_same(taken, elements),
        _ => false,
    }
}

// Whether the types are the same.
fn is_same(one: &Ty, other: &Ty) -> bool
    ensures { result ≡ same_type one.now other.now }
{
    one.equal(other)
}

// z : E ==> x := z.
fn chosen_from(alloc: Global, variable: u32, taken: u32, domain: Form) -> Result<Sub, Memory>
    ensures { IfOk result (λ s. s ≡ meant.chosen_where true variable taken domain) }
{
    let value = Form::make(alloc, Part::Var(taken))?;
    let guard = binary_of(alloc, BinOp::In, value.copy(alloc)?, domain)?;
    let mut pairs = Vec::new(alloc);
    pairs.push((variable, value))?;
    Sub::guard(alloc, guard, Sub::assign(alloc, pairs)?)
}

// f := f <+ {e |-> v}, where both are there.
fn overridden(
    alloc: Global,
    variable: u32,
    index: Option<Form>,
    value: Option<Form>,
) -> Result<Sub, Memory>
    ensures { IfOk result (λ s. s ≡ meant.overridden variable index value) }
{
    let Some(index) = index else {
        return Sub::skip(alloc);
    };
    let Some(value) = value else {
        return Sub::skip(alloc);
    };
    let function = Form::make(alloc, Part::Var(variable))?;
    let pair = binary_of(alloc, BinOp::Maps, index, value)?;
    let single = unary_of(alloc, UnOp::Single, pair)?;
    let mut pairs = Vec::new(alloc);
    pairs.push((variable, binary_of(alloc, BinOp::Over, function, single)?))?;
    Sub::assign(alloc, pairs)
}

// What stands for z : E ==> x := z where that has a fault.
fn nothing_chosen(alloc: Global) -> Result<Sub, Memory>
    ensures { IfOk result (λ s. s ≡ meant.nothing_chosen) }
{
    Sub::guard(alloc, Form::make(alloc, Part::True)?, Sub::skip(alloc)?)
}

// The formula of an operator and its operand.
fn unary_of(alloc: Global, op: UnOp, operand: Form) -> Result<Form, Memory>
    ensures { IfOk result (λ f. f ≡ unary op operand) }
{
    match unary(alloc, op, operand) {
        Ok(form) => Ok(form),
        Err(_) => Err(Memory),
    }
}

// The formula of an operator and its operands.
fn binary_of(alloc: Global, op: BinOp, left: Form, right: Form) -> Result<Form, Memory>
    ensures { IfOk result (λ f. f ≡ binary op left right) }
{
    match binary(alloc, op, left, right) {
        Ok(form) => Ok(form),
        Err(_) => Err(Memory),
    }
}
