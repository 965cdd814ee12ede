// Faults of substitutions: names that stand twice, formulas, names without a type, and what is written.

ghost use Rattle.std.specs.Option.{option_copied};
ghost use Rattle.std.specs.Prelude.{◌≡◌, ◌≢◌, ◌+◌, ◌∷◌, ◌++◌, [], cond, drop, IfOk, MatchOption};
ghost use Rattle.bk_val.specs.ValueType.{ValueType, pair_type, set_type};
ghost use Rattle.bk_raw.specs.Meaning.Outcome as wanted;
ghost use Rattle.bk_raw.specs.Trees.RawTree.{trees_of};
ghost use Rattle.bk_raw.specs.Trees.SubTree.{sub_assign};
ghost use Rattle.bk_raw.specs.Codes.SubView.{choices_of};
ghost use Rattle.bk_raw.specs.Errors.Blame.{blame};
ghost use Rattle.bk_elab_terms.specs.Shown.{told};
ghost use Rattle.bk_elab_terms.specs.Visible.{typing_of, visible_names};
ghost use Rattle.bk_check_subs.specs.Judged.{faults_by, branches_by, choices_by, binder_by, loop_by, parallel_by, condition_by};
ghost use Rattle.bk_check_subs.specs.Judged.{paired_by, unpaired_by, element_by, member_by, such_by, term_by, node_by};
ghost use Rattle.bk_scope.specs.Shown.{branches_shown};
ghost use Rattle.bk_statics.specs.SubFaults as meant;
ghost use Rattle.bk_statics.specs.Typings.{target, type_at};

use crate::left::{Interval, left_fault, push_writes, shared_fault, with_interval, write_fault};
use bk_elab_terms::binder::twice;
use bk_elab_terms::{Fault, Visible, earlier, no_type};
use bk_form::{Form, Ty};
use bk_io::Memory;
use bk_raw::{RawBranch, RawName, RawSub, RawSubNode, RawTerm};
use bk_scope::binders::{binder_count, last_of};
use bk_scope::faults::{no_type_unless, wrong_write};
use bk_scope::number::ahead;
use bk_scope::sight::{Target, bound, bound_texts, joined, old_texts, target_named};
use bk_scope::types::parts_of;
use bk_scope::way::Typing;

/// What a substitution is judged by: the types of numbers, the names of the level above, which invariants and variants of
/// loops see, the names in scope, the numbers that may be written, and the first number of what it binds.
#[derive(Clone, Copy)]
pub struct Judge<'a> {
    pub typing: Typing<'a>,
    pub above: &'a [Visible<'a>],
    pub names: &'a [Visible<'a>],
    pub writable: &'a [Interval],
    pub first: u32,
}

impl<'a> Judge<'a> {
    // The judge of what stands after a substitution that binds so much.
    fn behind(self, count: usize) -> Result<Judge<'a>, Memory>
        ensures { IfOk result (λ j. j ≡ record self.entry { first = self.entry.first + count }) }
    {
        Ok(Judge {
            typing: self.typing,
            above: self.above,
            names: self.names,
            writable: self.writable,
            first: ahead(self.first, count)?,
        })
    }

    /// The first fault of a substitution.
    #[tactic(auto, using(bk_scope::proofs::SubSizes::parts_are_smaller, bk_raw::proofs::Blamed::blames))]
    #[cycle(judging)]
    pub fn substitution(&self, sub: &RawSub) -> Result<Option<Fault>, Memory>
        ensures { IfOk result (λ fault. told fault ≡ blame (faults_by self.now sub.now)) }
    {
        match &sub.node {
            RawSubNode::Skip | RawSubNode::Call(_, _, _) => Ok(None),
            RawSubNode::Assign(names, terms) => self.assignment(names, terms),
            RawSubNode::AssignAt(name, index, value) => self.element(name, index, value),
            RawSubNode::BecomesMember(name, domain) => self.member(name, domain),
            RawSubNode::BecomesSuch(names, predicate) => self.such(names, predicate),
            RawSubNode::Begin(body) => self.substitution(body),
            RawSubNode::Pre(predicate, body) | RawSubNode::Assert(predicate, body) => {
                let fault = self.predicate(self.names, predicate)?;
                let within = self.substitution(body)?;
                Ok(earlier(fault, within))
            }
            RawSubNode::If(predicate, first, others, last)
            | RawSubNode::Select(predicate, first, others, last) => {
                let fault = self.predicate(self.names, predicate)?;
                let yes = self.substitution(first)?;
                let behind = self.behind(binder_count(first)?)?;
                let rest = behind.branches(others, last_of(last))?;
                let within = earlier(yes, rest);
                Ok(earlier(fault, within))
            }
            RawSubNode::Choice(first, others) => {
                let fault = self.substitution(first)?;
                let behind = self.behind(binder_count(first)?)?;
                let rest = behind.choices(others)?;
                Ok(earlier(fault, rest))
            }
            RawSubNode::Any(names, predicate, body) | RawSubNode::Let(names, predicate, body) => {
                self.binder(names, Some(predicate), body)
            }
            RawSubNode::Var(names, body) => self.binder(names, None, body),
            RawSubNode::While(test, body, invariant, variant) => {
                self.repetition(test, body, invariant, variant)
            }
            RawSubNode::Parallel(left, right) => self.parallel(left, right),
            RawSubNode::Sequence(left, right) => {
                let fault = self.substitution(left)?;
                let behind = self.behind(binder_count(left)?)?;
                let other = behind.substitution(right)?;
                Ok(earlier(fault, other))
            }
        }
    }

    // That of further branches.
    #[tactic(auto, using(bk_scope::proofs::SubSizes::parts_are_smaller, bk_raw::proofs::Blamed::blames))]
    #[cycle(judging)]
    fn branches(
        &self,
        branches: &[RawBranch],
        last: Option<&RawSub>,
    ) -> Result<Option<Fault>, Memory>
        ensures { IfOk result (λ fault. told fault ≡
            blame (branches_by self.now (branches_shown branches.now (option_copied last.entry)))) }
    {
        let [branch, others @ ..] = branches else {
            return match last {
                Some(last) => self.substitution(last),
                None => Ok(None),
            };
        };
        let fault = self.predicate(self.names, &branch.condition)?;
        let yes = self.substitution(&branch.body)?;
        let behind = self.behind(binder_count(&branch.body)?)?;
        let rest = behind.branches(others, last)?;
        let within = earlier(yes, rest);
        Ok(earlier(fault, within))
    }

    // That of further choices.
    #[tactic(auto, using(bk_scope::proofs::SubSizes::parts_are_smaller, bk_raw::proofs::Blamed::blames))]
    #[cycle(judging)]
    fn choices(&self, choices: &[RawSub]) -> Result<Option<Fault>, Memory>
        ensures { IfOk result (λ fault. told fault ≡ blame (choices_by self.now (choices_of choices.now))) }
    {
        let [choice, others @ ..] = choices else {
            return Ok(None);
        };
        let fault = self.substitution(choice)?;
        let behind = self.behind(binder_count(choice)?)?;
        let rest = behind.choices(others)?;
        Ok(earlier(fault, rest))
    }

    // That of ANY and LET, where there is a predicate, or else of VAR.
    #[tactic(auto, using(bk_scope::proofs::SubSizes::parts_are_smaller, bk_raw::proofs::Blamed::blames))]
    #[cycle(judging)]
    fn binder(
        &self,
        names: &[RawName],
        predicate: Option<&RawTerm>,
        body: &RawSub,
    ) -> Result<Option<Fault>, Memory>
        ensures { IfOk result (λ fault. told fault ≡
            blame (binder_by self.now names.now (option_copied predicate.entry) body.now)) }
    {
        let alloc = self.typing.alloc;
        let inside = bound(alloc, self.first, names, self.names)?;
        let writable = with_interval(alloc, self.first, names.len(), self.writable)?;
        let inner = Judge {
            typing: self.typing,
            above: self.above,
            names: &inside,
            writable: &writable,
            first: ahead(self.first, names.len())?,
        };
        let declared = declared_fault(self.typing, self.first, names)?;
        let condition = inner.condition(predicate)?;
        let stated = inner.substitution(body)?;
        let within = earlier(condition, stated);
        let bound = earlier(declared, within);
        Ok(earlier(twice(names), bound))
    }

    // That of WHILE.
    #[tactic(auto, using(bk_scope::proofs::SubSizes::parts_are_smaller, bk_raw::proofs::Blamed::blames))]
    #[cycle(judging)]
    fn repetition(
        &self,
        test: &RawTerm,
        body: &RawSub,
        invariant: &RawTerm,
        variant: &RawTerm,
    ) -> Result<Option<Fault>, Memory>
        ensures { IfOk result (λ fault. told fault ≡
            blame (loop_by self.now test.now body.now invariant.now variant.now)) }
    {
        let fault = self.predicate(self.names, test)?;
        let within = self.substitution(body)?;
        let names = joined(self.typing.alloc, self.names, self.above)?;
        let stated = self.predicate(&names, invariant)?;
        let counted = self.term(&names, Some(&Ty::int()), variant)?;
        let ends = earlier(stated, counted);
        let repeated = earlier(within, ends);
        Ok(earlier(fault, repeated))
    }

    // That of `||`.
    #[tactic(auto, using(bk_scope::proofs::SubSizes::parts_are_smaller, bk_raw::proofs::Blamed::blames))]
    #[cycle(judging)]
    fn parallel(&self, left: &RawSub, right: &RawSub) -> Result<Option<Fault>, Memory>
        ensures { IfOk result (λ fault. told fault ≡ blame (parallel_by self.now left.now right.now)) }
    {
        let fault = self.substitution(left)?;
        let behind = self.behind(binder_count(left)?)?;
        let other = behind.substitution(right)?;
        let alloc = self.typing.alloc;
        let mut one_side = Vec::new(alloc);
        push_writes(alloc, self.names, self.first, left, &mut one_side)?;
        let mut other_side = Vec::new(alloc);
        push_writes(alloc, self.names, behind.first, right, &mut other_side)?;
        let shared = shared_fault(&one_side, &other_side);
        let right = earlier(other, shared);
        Ok(earlier(fault, right))
    }

    // ---- formulas

    // The first fault of a predicate under these names.
    fn predicate(&self, names: &[Visible<'_>], predicate: &RawTerm) -> Result<Option<Fault>, Memory>
        ensures { IfOk result (λ fault. told fault ≡ blame (meant.predicate_faults self.now.typing.max
            (typing_of self.now.typing.types.now) (visible_names names.now) predicate.now)) }
    {
        let asked = self.typing.under(names).predicate(predicate)?;
        Ok(asked.fault)
    }

    // That of a predicate, where there is one.
    fn condition(&self, predicate: Option<&RawTerm>) -> Result<Option<Fault>, Memory>
        ensures { IfOk result (λ fault. told fault ≡ blame (condition_by self.now (option_copied predicate.entry))) }
    {
        match predicate {
            Some(predicate) => self.predicate(self.names, predicate),
            None => Ok(None),
        }
    }

    // That of a term that takes a type, or that is a value of any where there is none.
    fn term(
        &self,
        names: &[Visible<'_>],
        ty: Option<&Ty>,
        term: &RawTerm,
    ) -> Result<Option<Fault>, Memory>
        ensures { IfOk result (λ fault. told fault ≡ blame (meant.term_faults self.now.typing.max
            (typing_of self.now.typing.types.now) (visible_names names.now) (option_copied ty.entry) term.now)) }
    {
        match ty {
            Some(ty) => {
                let asked = self.typing.under(names).of_type(term, ty)?;
                Ok(asked.fault)
            }
            None => {
                let asked = self.typing.under(names).value(term)?;
                Ok(asked.fault)
            }
        }
    }

    // The type of a written name, if it is a variable's that has one.
    fn type_of(&self, name: &RawName) -> Result<Option<Ty>, Memory>
        ensures { IfOk result (λ t. t ≡ type_at (typing_of self.now.typing.types.now)
            (target (visible_names self.now.names.now) name.now.text)) }
    {
        match target_named(self.names, name.text.as_bytes()) {
            Target::Variable(variable) => self.typing.of(variable),
            _ => Ok(None),
        }
    }

    // ---- assignments

    // That of `x, y := E, F`.
    fn assignment(&self, names: &[RawName], terms: &[RawTerm]) -> Result<Option<Fault>, Memory>
        ensures { IfOk result (λ fault. told fault ≡ blame (node_by self.now (sub_assign names.now (trees_of terms.now)))) }
    {
        let left = left_fault(self.typing.alloc, self.names, self.writable, names)?;
        let paired = self.paired(names, terms)?;
        let others = self.unpaired(first_place(names), names.len(), terms)?;
        let right = earlier(paired, others);
        Ok(earlier(left, right))
    }

    // That of written names with their terms, each of which takes its variable's type. Where a term is missing the first
    // name is at fault.
    fn paired(&self, names: &[RawName], terms: &[RawTerm]) -> Result<Option<Fault>, Memory>
        ensures { IfOk result (λ fault. told fault ≡
            blame (paired_by self.now (meant.first_place names.now) names.now (trees_of terms.now))) }
    {
        let mut fault = None;
        for (index, name) in names.iter().enumerate() {
            if index >= terms.len() {
                return Ok(earlier(fault, wrong_write(first_place(names))));
            }
            fault = earlier(fault, self.assigned(name, &terms[index])?);
        }
        Ok(fault)
    }

    // That of a term that takes the type of a written name.
    fn assigned(&self, name: &RawName, term: &RawTerm) -> Result<Option<Fault>, Memory>
        ensures { IfOk result (λ fault. told fault ≡ blame (term_by self.now
            (type_at (typing_of self.now.typing.types.now) (target (visible_names self.now.names.now) name.now.text)) term.now)) }
    {
        let ty = self.type_of(name)?;
        let fault = self.term(self.names, ty.as_ref(), term)?;
        Ok(fault)
    }

    // That of the terms after the first so many, for which there is no name: the first name is at fault.
    fn unpaired(
        &self,
        first: usize,
        count: usize,
        terms: &[RawTerm],
    ) -> Result<Option<Fault>, Memory>
        ensures { IfOk result (λ fault. told fault ≡ blame (unpaired_by self.now first count (trees_of terms.now))) }
    {
        let mut fault = None;
        let others = terms_behind(count, terms);
        for term in others {
            let within = self.term(self.names, None, term)?;
            fault = earlier(fault, earlier(wrong_write(first), within));
        }
        Ok(fault)
    }

    // That of `f(e) := v`.
    fn element(
        &self,
        name: &RawName,
        index: &RawTerm,
        value: &RawTerm,
    ) -> Result<Option<Fault>, Memory>
        ensures { IfOk result (λ fault. told fault ≡ blame (element_by self.now name.now index.now value.now)) }
    {
        let left = write_fault(self.names, self.writable, name);
        let ty = self.type_of(name)?;
        let put = self.put(name.at, &ty, index, value)?;
        Ok(earlier(left, put))
    }

    // That of the index and the value: f is a relation, and they take its types.
    fn put(
        &self,
        at: usize,
        ty: &Option<Ty>,
        index: &RawTerm,
        value: &RawTerm,
    ) -> Result<Option<Fault>, Memory>
        ensures { IfOk result (λ fault. told fault ≡ blame (meant.put_faults self.now.typing.max
            (typing_of self.now.typing.types.now) (visible_names self.now.names.now) at ty.now index.now value.now)) }
    {
        let Some(ty) = ty else {
            return self.two_terms(None, index, None, value);
        };
        let Some((first, second)) = parts_of(ty) else {
            let within = self.two_terms(None, index, None, value)?;
            return Ok(earlier(no_type(at), within));
        };
        self.two_terms(Some(first), index, Some(second), value)
    }

    // That of two terms, each of which takes a type.
    fn two_terms(
        &self,
        first: Option<&Ty>,
        index: &RawTerm,
        second: Option<&Ty>,
        value: &RawTerm,
    ) -> Result<Option<Fault>, Memory>
        ensures { IfOk result (λ fault. told fault ≡ blame (
            term_by self.now (option_copied first.entry) index.now ++ term_by self.now (option_copied second.entry) value.now)) }
    {
        let one = self.term(self.names, first, index)?;
        let other = self.term(self.names, second, value)?;
        Ok(earlier(one, other))
    }

    // That of `x :: E`.
    fn member(&self, name: &RawName, domain: &RawTerm) -> Result<Option<Fault>, Memory>
        ensures { IfOk result (λ fault. told fault ≡ blame (member_by self.now name.now domain.now)) }
    {
        let left = write_fault(self.names, self.writable, name);
        let old = self.old_fault(self.first, name)?;
        let ty = self.type_of(name)?;
        let asked = self.typing.under(self.names).domain(domain)?;
        let over = over_fault(name.at, &ty, &asked.answer);
        let ranged = earlier(asked.fault, over);
        let right = earlier(old, ranged);
        Ok(earlier(left, right))
    }

    // That of `x, y :(P)`.
    fn such(&self, names: &[RawName], predicate: &RawTerm) -> Result<Option<Fault>, Memory>
        ensures { IfOk result (λ fault. told fault ≡ blame (such_by self.now names.now predicate.now)) }
    {
        let alloc = self.typing.alloc;
        let left = left_fault(alloc, self.names, self.writable, names)?;
        let old = self.old_faults(names)?;
        let texts = old_texts(alloc, names)?;
        let inside = bound_texts(alloc, self.first, &texts, self.names)?;
        let stated = self.predicate(&inside, predicate)?;
        let right = earlier(old, stated);
        Ok(earlier(left, right))
    }

    // That of old values, which have the numbers from `first` on.
    fn old_faults(&self, names: &[RawName]) -> Result<Option<Fault>, Memory>
        ensures { IfOk result (λ fault. told fault ≡ blame (meant.old_faults
            (typing_of self.now.typing.types.now) (visible_names self.now.names.now) self.now.first names.now)) }
    {
        let mut fault = None;
        for (index, name) in names.iter().enumerate() {
            let number = ahead(self.first, index)?;
            fault = earlier(fault, self.old_fault(number, name)?);
        }
        Ok(fault)
    }

    // That of an old value with this number: where the written variable has a type, it has the same.
    fn old_fault(&self, number: u32, name: &RawName) -> Result<Option<Fault>, Memory>
        ensures { IfOk result (λ fault. told fault ≡ blame (cond (meant.is_same_option
            (type_at (typing_of self.now.typing.types.now) (target (visible_names self.now.names.now) name.now.text))
            (typing_of self.now.typing.types.now number)) [] (wanted.no_type name.now.at))) }
    {
        let ty = self.type_of(name)?;
        let old = self.typing.of(number)?;
        let is_same = is_same_option(ty.as_ref(), old.as_ref());
        Ok(no_type_unless(is_same, name.at))
    }
}

/// The first fault of bound names, whose numbers are those from this one on: those without a type.
pub fn declared_fault(
    typing: Typing<'_>,
    first: u32,
    names: &[RawName],
) -> Result<Option<Fault>, Memory>
    ensures { IfOk result (λ fault. told fault ≡ blame (meant.declared_faults (typing_of typing.entry.types.now) first names.now)) }
{
    let mut fault = None;
    for (index, name) in names.iter().enumerate() {
        let has_type = typing.has(ahead(first, index)?);
        fault = earlier(fault, no_type_unless(has_type, name.at));
    }
    Ok(fault)
}

// The terms after the first so many.
fn terms_behind(count: usize, terms: &[RawTerm]) -> &[RawTerm]
    ensures { result.now ≡ drop count terms.now }
{
    if count < terms.len() {
        &terms[count..]
    } else {
        &[]
    }
}

// Where the first name stands.
fn first_place(names: &[RawName]) -> usize
    ensures { result ≡ meant.first_place names.now }
{
    match names {
        [first, ..] => first.at,
        [] => 0,
    }
}

// The fault of `x :: E` where E does not range over the type of x.
fn over_fault(at: usize, ty: &Option<Ty>, domain: &Option<(Form, Ty)>) -> Option<Fault>
    ensures { told result ≡ blame (meant.over_faults at ty.now domain.now) }
{
    let Some((_, elements)) = domain else {
        return None;
    };
    no_type_unless(is_same_or_none(ty, elements), at)
}

// Whether it is the type, where there is one.
fn is_same_or_none(ty: &Option<Ty>, other: &Ty) -> bool
    ensures { result ≡ meant.same_or_none ty.now other.now }
{
    match ty {
        Some(ty) => ty.equal(other),
        None => true,
    }
}

// Whether the second type is the first, where there is a first.
fn is_same_option(ty: Option<&Ty>, other: Option<&Ty>) -> bool
    ensures { result ≡ meant.is_same_option (option_copied ty.entry) (option_copied other.entry) }
{
    match (ty, other) {
        (None, _) => true,
        (Some(ty), Some(other)) => ty.equal(other),
        (Some(_), None) => false,
    }
}
