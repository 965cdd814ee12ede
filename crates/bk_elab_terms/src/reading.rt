// What a term reads as under the names in scope.

ghost use Rattle.std.specs.Option.{option_copied};
ghost use Rattle.std.specs.Prelude.{◌≡◌, ◌+◌, ◌++◌, ◌≤◌, suc, List, None, IfOk, OnOk, length, Option};
ghost use Rattle.bk_raw.specs.Meaning.Binders.{unranged, as_bound, bound_names, inside, body_of};
ghost use Rattle.bk_raw.specs.Trees.FreeNames.{conjuncts};
ghost use Rattle.bk_raw.specs.Meaning.Names.{count_locals};
ghost use Rattle.bk_raw.specs.Meaning.Outcome.{Reading};
ghost use Rattle.bk_raw.specs.Meaning.Printed.{printed_ranges, wrong_ranges};
ghost use Rattle.bk_raw.specs.Trees.RawTree.{RawTree, trees_of};
ghost use Rattle.bk_raw.specs.Codes.RawView.{ranges_of};
ghost use Rattle.bk_raw.specs.Meaning.TermReading as meant;
ghost use Rattle.bk_raw.specs.Errors.Blame.{blame};
ghost use Rattle.bk_elab_terms.specs.Conjuncts.{and_sides};
ghost use Rattle.bk_elab_terms.specs.Forms.{one_node, two_node};
ghost use Rattle.bk_elab_terms.specs.Kept.{IsKept, AreKept, StaysKept, StayKept};
ghost use Rattle.bk_elab_terms.specs.Shown.{told, IsRead};
ghost use Rattle.bk_elab_terms.specs.Sights.{around_of, read_by, node_by, names_of, names_below, bounds_from, ranges_as, IsRest, clues_by};
ghost use Rattle.bk_elab_terms.specs.Sights.{named_node, numbered_node, named_abstraction, numbered_abstraction, Stands, StandsBelow};

use crate::binder::{
    Ranged, abstracted, clue_type, comprehended, following, is_used, push_untyped, range,
    ranged_of, ranging_conjunct, take_range, twice, typing_conjunct, with_conjunct, without_ranges,
};
use crate::blame::{Fault, earlier};
use crate::form::{OnePart, TwoParts, with_part, with_parts};
use crate::kept::{is_plain, is_settled, kept_if, next_kept};
use crate::outcome::{Step, Told, no_type};
use crate::part::{empty_set, extended_by, place_of, placed, single_of};
use crate::shape::is_lasting;
use crate::sight::Reader;
use crate::word::{constant, number};
use crate::written::{and_sides, implies_sides, infix_sides};
use bk_form::{Form, Part};
use bk_io::Memory;
use bk_raw::{InfixOp, RawBound, RawName, RawNode, RawRange, RawTerm};
use std::collections::VecDeque;

impl<'a> Reader<'a> {
    // What a term reads as.
    #[tactic(auto, using(crate::proofs::Readings::readings, crate::proofs::Sizes::parts_are_smaller))]
    #[cycle(reading)]
    pub(crate) fn read(&mut self, term: &'a RawTerm) -> Result<Step, Memory>
        ensures read { IfOk result (λ s. IsRead s (read_by self.old term.now)) }
        ensures stands { OnOk result (Stands self.old self.new) }
    {
        let (alloc, at) = (self.alloc, term.at);
        match &term.node {
            RawNode::Name(name) => self.name(at, name.as_bytes()),
            RawNode::LevelName(name, level) => self.level_name(at, name, *level),
            RawNode::BoundName(bound) => self.bound_name(at, *bound),
            RawNode::Number(value) => number(alloc, *value),
            RawNode::Constant(op) => constant(alloc, self.max(), at, *op),
            RawNode::EmptySet => Ok(empty_set()),
            RawNode::TypedEmpty(ty) => self.typed_empty(at, ty),
            RawNode::Word(op, part) => self.one_part(OnePart::Word(*op), at, part),
            RawNode::Negative(part) => self.one_part(OnePart::Negative, at, part),
            RawNode::Inverse(part) => self.one_part(OnePart::Inverse, at, part),
            RawNode::Infix(op, left, right) => {
                self.two_parts(TwoParts::Infix(*op), at, left, right)
            }
            RawNode::Image(left, right) => self.two_parts(TwoParts::Image, at, left, right),
            RawNode::Apply(left, right) => self.two_parts(TwoParts::Apply, at, left, right),
            RawNode::Composition(left, right) => {
                self.two_parts(TwoParts::Composition, at, left, right)
            }
            RawNode::Pair(left, right) => self.two_parts(TwoParts::Pair, at, left, right),
            RawNode::Extension(elements) => self.extension(at, elements),
            RawNode::ForAll(names, body) => self.quantifier(true, names, body),
            RawNode::Exists(names, body) => self.quantifier(false, names, body),
            RawNode::Comprehension(names, body) => self.abstraction(at, names, body, None),
            RawNode::Lambda(names, body, value) => self.abstraction(at, names, body, Some(value)),
            RawNode::TypedForAll(bounds, body) => self.numbered_quantifier(true, bounds, body),
            RawNode::TypedExists(bounds, body) => self.numbered_quantifier(false, bounds, body),
            RawNode::RangedComprehension(ranges, body) => {
                self.numbered_abstraction(at, ranges, body, None)
            }
            RawNode::RangedLambda(ranges, body, value) => {
                self.numbered_abstraction(at, ranges, body, Some(value))
            }
        }
    }

    // A term with one part.
    #[tactic(auto, using(crate::proofs::Forms::parts_read, crate::proofs::Sizes::parts_are_smaller))]
    #[cycle(reading)]
    fn one_part(&mut self, form: OnePart, at: usize, part: &'a RawTerm) -> Result<Step, Memory>
        ensures read { IfOk result (λ s. IsRead s (node_by self.old at (one_node form part.now))) }
        ensures stands { OnOk result (Stands self.old self.new) }
    {
        let read = self.read(part)?;
        with_part(self.alloc, form, at, part, read)
    }

    // A term with two parts.
    #[tactic(auto, using(crate::proofs::Forms::parts_read, crate::proofs::Sizes::parts_are_smaller))]
    #[cycle(reading)]
    fn two_parts(
        &mut self,
        form: TwoParts,
        at: usize,
        left: &'a RawTerm,
        right: &'a RawTerm,
    ) -> Result<Step, Memory>
        ensures read { IfOk result (λ s. IsRead s (node_by self.old at (two_node form left.now right.now))) }
        ensures stands { OnOk result (Stands self.old self.new) }
    {
        let one = self.read(left)?;
        let other = self.read(right)?;
        with_parts(self.alloc, form, at, left, right, one, other)
    }

    // `{a, b, c}`: one element after another.
    #[tactic(auto, using(crate::proofs::Elements::elements, crate::proofs::Sizes::parts_are_smaller))]
    #[cycle(reading)]
    fn extension(&mut self, at: usize, elements: &'a [RawTerm]) -> Result<Step, Memory>
        ensures read { IfOk result (λ s. IsRead s
            (meant.extension_reading (around_of self.old).max (names_of self.old) at (trees_of elements.now))) }
        ensures stands { OnOk result (Stands self.old self.new) }
    {
        let [first, others @ ..] = elements else {
            return Ok(Step::silent(no_type(at)));
        };
        let read = self.read(first)?;
        let mut set = single_of(self.alloc, first, read)?;
        for element in others {
            let read = self.read(element)?;
            set = extended_by(self.alloc, at, element, set, read)?;
        }
        Ok(set)
    }

    // `!x.(P)`, where the conjuncts of the left side of `=>` type the names, or `#x.(P)`, where those of P do.
    #[tactic(auto, using(crate::proofs::Quantified::quantifying, crate::proofs::Sizes::parts_are_smaller))]
    #[cycle(reading)]
    fn quantifier(
        &mut self,
        universal: bool,
        names: &'a [RawName],
        body: &'a RawTerm,
    ) -> Result<Step, Memory>
        ensures read { IfOk result (λ s. IsRead s (node_by self.old 0 (named_node universal names.now body.now))) }
        ensures stands { OnOk result (Stands self.old self.new) }
    {
        let first = self.locals.len();
        push_untyped(self, names)?;
        let read = self.typed_body(universal, first, body)?;
        self.quantified(universal, first, twice(names), placed(true, body, read))
    }

    // A quantifier's body, whose conjuncts, or those of the left side of `=>` in a universal one's, type the bound names
    // from a place on.
    #[tactic(auto, using(crate::proofs::Quantified::bodies, crate::proofs::Readings::readings, crate::proofs::Sizes::parts_are_smaller))]
    #[cycle(reading)]
    fn typed_body(
        &mut self,
        universal: bool,
        first: usize,
        body: &'a RawTerm,
    ) -> Result<Step, Memory>
        requires { first ≤ length self.old.locals.items }
        ensures clues { OnOk result (bounds_from first self.new ≡
            clues_by universal (around_of self.old).max (names_below first self.old) (bounds_from first self.old) body.now) }
        ensures read { IfOk result (λ s. IsRead s (read_by self.new body.now)) }
        ensures stands { OnOk result (StandsBelow first self.old self.new) }
        ensures count { OnOk result (length self.new.locals.items ≡ length self.old.locals.items) }
    {
        if !universal {
            return self.typed_conjunction(first, body);
        }
        let Some((premise, conclusion)) = implies_sides(body) else {
            return self.read(body);
        };
        let one = self.typed_conjunction(first, premise)?;
        let other = self.read(conclusion)?;
        let form = TwoParts::Infix(InfixOp::Implies);
        with_parts(self.alloc, form, body.at, premise, conclusion, one, other)
    }

    // A term whose conjuncts type the bound names from a place on.
    #[tactic(auto, using(crate::proofs::Remembered::conjunctions, crate::proofs::Readings::readings, crate::proofs::Sizes::parts_are_smaller))]
    #[cycle(reading)]
    fn typed_conjunction(&mut self, first: usize, term: &'a RawTerm) -> Result<Step, Memory>
        requires { first ≤ length self.old.locals.items }
        ensures clues { OnOk result (bounds_from first self.new ≡ meant.clues (around_of self.old).max
            (names_below first self.old) (bounds_from first self.old) term.now) }
        ensures read { IfOk result (λ s. IsRead s (read_by self.new term.now)) }
        ensures stands { OnOk result (StandsBelow first self.old self.new) }
        ensures count { OnOk result (length self.new.locals.items ≡ length self.old.locals.items) }
    {
        let mut kept = VecDeque::new(self.alloc);
        self.clues(first, &mut kept, term)?;
        self.conjunction(&mut kept, term)
    }

    // A term, of whose conjuncts some right sides are kept: those that are kept are not read again.
    #[tactic(auto, using(crate::proofs::Remembered::conjunctions, crate::proofs::Readings::readings, crate::proofs::Sizes::parts_are_smaller))]
    #[cycle(reading)]
    fn conjunction(
        &mut self,
        kept: &mut VecDeque<Option<Step>>,
        term: &'a RawTerm,
    ) -> Result<Step, Memory>
        ensures read { IfOk result (λ s. (ts : List RawTree) → AreKept (around_of self.old).max (names_of self.old)
            kept.old.items (conjuncts term.now ++ ts) → IsRead s (read_by self.old term.now)) }
        ensures kept { OnOk result ((ts : List RawTree) → AreKept (around_of self.old).max (names_of self.old)
            kept.old.items (conjuncts term.now ++ ts) → AreKept (around_of self.old).max (names_of self.old)
            kept.new.items ts) }
        ensures stands { OnOk result (Stands self.old self.new) }
    {
        let Some((left, right)) = and_sides(term) else {
            let side = next_kept(kept);
            return self.conjunct(side, term);
        };
        let one = self.conjunction(kept, left)?;
        let other = self.conjunction(kept, right)?;
        let form = TwoParts::Infix(InfixOp::And);
        with_parts(self.alloc, form, term.at, left, right, one, other)
    }

    // A term, whose right side may have been read before.
    #[tactic(auto, using(crate::proofs::Remembered::conjunctions, crate::proofs::Readings::readings, crate::proofs::Sizes::parts_are_smaller))]
    #[cycle(reading)]
    fn conjunct(&mut self, side: Option<Step>, term: &'a RawTerm) -> Result<Step, Memory>
        ensures read { IfOk result (λ s. IsKept (around_of self.old).max (names_of self.old) side term.now →
            IsRead s (read_by self.old term.now)) }
        ensures stands { OnOk result (Stands self.old self.new) }
    {
        let Some(side) = side else {
            return self.read(term);
        };
        let Some((op, left, right)) = infix_sides(term) else {
            return self.read(term);
        };
        let one = self.read(left)?;
        with_parts(
            self.alloc,
            TwoParts::Infix(op),
            term.at,
            left,
            right,
            one,
            side,
        )
    }

    // A quantifier over printed bound variables with their types.
    #[tactic(auto, using(crate::proofs::Quantified::quantifying, crate::proofs::Sizes::parts_are_smaller))]
    #[cycle(reading)]
    fn numbered_quantifier(
        &mut self,
        universal: bool,
        bounds: &'a [RawBound],
        body: &'a RawTerm,
    ) -> Result<Step, Memory>
        ensures read { IfOk result (λ s. IsRead s (node_by self.old 0 (numbered_node universal bounds.now body.now))) }
        ensures stands { OnOk result (Stands self.old self.new) }
    {
        let first = self.locals.len();
        let fault = self.push_numbered(bounds)?;
        let read = self.read(body)?;
        self.quantified(universal, first, fault, placed(true, body, read))
    }

    // `{x | P}`: each name has its range from its first conjunct, and the others are the body; or `%x.(P | E)`, likewise.
    #[tactic(auto, using(crate::proofs::Clued::abstractions, crate::proofs::Readings::readings, crate::proofs::Sizes::parts_are_smaller))]
    #[cycle(reading)]
    fn abstraction(
        &mut self,
        at: usize,
        names: &'a [RawName],
        body: &'a RawTerm,
        value: Option<&'a RawTerm>,
    ) -> Result<Step, Memory>
        ensures read { IfOk result (λ s. IsRead s
            (node_by self.old at (named_abstraction names.now body.now (option_copied value.entry)))) }
        ensures stands { OnOk result (Stands self.old self.new) }
    {
        let first = self.locals.len();
        let found = self.range_names(names, body)?;
        let Some(value) = value else {
            self.leave(first);
            return comprehended(self.alloc, at, twice(names), found.names, found.body);
        };
        let read = self.read(value)?;
        self.leave(first);
        let image = placed(false, value, read);
        abstracted(
            self.alloc,
            at,
            twice(names),
            found.names,
            found.body,
            (place_of(value), image),
        )
    }

    // The names with their ranges, and what is left of the predicate; the names are in scope after it.
    #[tactic(auto, using(crate::proofs::Readings::readings, crate::proofs::Sizes::parts_are_smaller))]
    #[cycle(reading)]
    fn range_names(&mut self, names: &'a [RawName], body: &'a RawTerm) -> Result<Body<'a>, Memory>
        ensures ranges { IfOk result (λ b. ranges_as b.names.items ≡
            meant.ranges (around_of self.old).max (names_of self.old) names.now 0 (unranged names.now) body.now) }
        ensures body { IfOk result (λ b. IsRead b.body (body_of (meant.rest (around_of self.old).max
            (names_of self.new) (ranges_as b.names.items) 0 None body.now))) }
        ensures names { IfOk result (λ b. names_of self.new ≡
            inside (as_bound (ranges_as b.names.items)) (names_of self.old)) }
        ensures stands { OnOk result (StandsBelow (length self.old.locals.items) self.old self.new) }
    {
        let mut found = without_ranges(self.alloc, names)?;
        let mut kept = VecDeque::new(self.alloc);
        self.ranges(names, 0, &mut found, &mut kept, body)?;
        let listed = found.as_slice();
        self.push_ranged(listed)?;
        let mut left = None;
        self.rest(listed, 0, &mut left, &mut kept, body)?;
        let Some(body) = left else {
            let truth = Form::make(self.alloc, Part::True)?;
            let body = Step::plain(Told::Holding(truth));
            return Ok(Body { names: found, body });
        };
        Ok(Body { names: found, body })
    }

    // The ranges of printed bound variables, which have the next numbers from the outside, and the first of their
    // faults.
    #[tactic(auto, using(crate::proofs::Readings::readings, crate::proofs::Sizes::parts_are_smaller))]
    #[cycle(reading)]
    fn numbered_ranges(&mut self, ranges: &'a [RawRange]) -> Result<NumberedRanges<'a>, Memory>
        ensures ranges { IfOk result (λ n. ranges_as n.names.items ≡
            printed_ranges (meant.range_reads (around_of self.old).max (names_of self.old) (ranges_of ranges.now))) }
        ensures fault { IfOk result (λ n. told n.fault ≡ blame (wrong_ranges (suc (count_locals (names_of self.old)))
            (meant.range_reads (around_of self.old).max (names_of self.old) (ranges_of ranges.now)))) }
        ensures stands { OnOk result (Stands self.old self.new) }
    {
        let mut found = NumberedRanges {
            names: Vec::new(self.alloc),
            fault: None,
        };
        let standing = self.locals.len();
        for (index, range) in ranges.iter().enumerate() {
            let read = self.read(&range.range)?;
            let (ranged, fault) = ranged_of(self.alloc, range, read, standing, index)?;
            found.fault = earlier(found.fault, fault);
            found.names.push(ranged)?;
        }
        Ok(found)
    }

    // `{$1:D | P}`, or `%($1:D).(P | E)`.
    #[tactic(auto, using(crate::proofs::Readings::readings, crate::proofs::Sizes::parts_are_smaller))]
    #[cycle(reading)]
    fn numbered_abstraction(
        &mut self,
        at: usize,
        ranges: &'a [RawRange],
        body: &'a RawTerm,
        value: Option<&'a RawTerm>,
    ) -> Result<Step, Memory>
        ensures read { IfOk result (λ s. IsRead s
            (node_by self.old at (numbered_abstraction ranges.now body.now (option_copied value.entry)))) }
        ensures stands { OnOk result (Stands self.old self.new) }
    {
        let first = self.locals.len();
        let found = self.numbered_ranges(ranges)?;
        self.push_ranged(&found.names)?;
        let read = self.read(body)?;
        let body = placed(true, body, read);
        let Some(value) = value else {
            self.leave(first);
            return comprehended(self.alloc, at, found.fault, found.names, body);
        };
        let read = self.read(value)?;
        self.leave(first);
        let image = placed(false, value, read);
        abstracted(
            self.alloc,
            at,
            found.fault,
            found.names,
            body,
            (place_of(value), image),
        )
    }

    // The conjuncts of a term give types to the bound names from a place on, each from the names that have one already.
    // The right sides that were read are kept, one entry a conjunct.
    #[tactic(auto, using(crate::proofs::Remembered::typing, crate::proofs::Readings::readings, crate::proofs::Sizes::parts_are_smaller))]
    #[cycle(reading)]
    pub(crate) fn clues(
        &mut self,
        first: usize,
        kept: &mut VecDeque<Option<Step>>,
        term: &'a RawTerm,
    ) -> Result<(), Memory>
        requires { first ≤ length self.old.locals.items }
        ensures clues { OnOk result (bounds_from first self.new ≡ meant.clues (around_of self.old).max
            (names_below first self.old) (bounds_from first self.old) term.now) }
        ensures kept { OnOk result ((ts : List RawTree) → StayKept (around_of self.old).max (names_below first self.old)
            (bounds_from first self.old) kept.old.items ts → StayKept (around_of self.old).max
            (names_below first self.old) (bounds_from first self.new) kept.new.items (ts ++ conjuncts term.now)) }
        ensures stands { OnOk result (StandsBelow first self.old self.new) }
        ensures count { OnOk result (length self.new.locals.items ≡ length self.old.locals.items) }
    {
        if let Some((left, right)) = and_sides(term) {
            self.clues(first, kept, left)?;
            return self.clues(first, kept, right);
        }
        let side = self.clue(first, term)?;
        kept.push_back(side)?;
        Ok(())
    }

    // A conjunct gives a type to one of the bound names from a place on. Its right side is kept if it was read and
    // reads so whatever types the names still get; where a name without a type stands free in it, it tells nothing.
    #[tactic(auto, using(crate::proofs::Remembered::typing, crate::proofs::Readings::readings, crate::proofs::Sizes::parts_are_smaller))]
    #[cycle(reading)]
    fn clue(&mut self, first: usize, term: &'a RawTerm) -> Result<Option<Step>, Memory>
        requires long { first ≤ length self.old.locals.items }
        requires alone { and_sides term.now ≡ None }
        ensures clues { OnOk result (bounds_from first self.new ≡ meant.clues (around_of self.old).max
            (names_below first self.old) (bounds_from first self.old) term.now) }
        ensures kept { IfOk result (λ k. StaysKept (around_of self.old).max (names_below first self.old)
            (bounds_from first self.new) k term.now) }
        ensures stands { OnOk result (StandsBelow first self.old self.new) }
        ensures count { OnOk result (length self.new.locals.items ≡ length self.old.locals.items) }
    {
        let Some(conjunct) = typing_conjunct(&self.locals[first..], term) else {
            return Ok(None);
        };
        if self.is_untold(first, conjunct.side)? {
            return Ok(None);
        }
        let settled = is_settled(first, &self.locals[first..], conjunct.side);
        let read = self.read(conjunct.side)?;
        let ty = clue_type(self.alloc, conjunct.op, &read.outcome)?;
        self.take_type(first, conjunct.place, ty);
        Ok(kept_if(settled, read))
    }

    // The conjuncts of a term give ranges to the names, all of which are bound. The first conjunct has this number;
    // the number of the first one after the term is answered. The right sides that serve for the body are kept, one
    // entry a conjunct.
    #[tactic(auto, using(crate::proofs::Conjoined::ranging, crate::proofs::Readings::readings, crate::proofs::Sizes::parts_are_smaller))]
    #[cycle(reading)]
    fn ranges(
        &mut self,
        all: &'a [RawName],
        number: usize,
        names: &mut Vec<Ranged<'a>>,
        kept: &mut VecDeque<Option<Step>>,
        term: &'a RawTerm,
    ) -> Result<usize, Memory>
        ensures ranges { OnOk result (ranges_as names.new.items ≡ meant.ranges (around_of self.old).max
            (names_of self.old) all.now number (ranges_as names.old.items) term.now) }
        ensures kept { OnOk result ((ts : List RawTree) → StayKept (around_of self.old).max (names_of self.old)
            (bound_names all.now) kept.old.items ts → StayKept (around_of self.old).max (names_of self.old)
            (bound_names all.now) kept.new.items (ts ++ conjuncts term.now)) }
        ensures count { IfOk result (λ n. n ≡ number + length (conjuncts term.now)) }
        ensures stands { OnOk result (Stands self.old self.new) }
    {
        if let Some((left, right)) = and_sides(term) {
            let next = self.ranges(all, number, names, kept, left)?;
            return self.ranges(all, next, names, kept, right);
        }
        let behind = following(number)?;
        let side = self.range(all, number, names, term)?;
        kept.push_back(side)?;
        Ok(behind)
    }

    // A conjunct gives a range to one of the names, all of which are bound. Its right side is kept if it was read, gives
    // none and serves for the body: inside the binder it has the same faults, and no other formula is made of it.
    #[tactic(auto, using(crate::proofs::Conjoined::ranging, crate::proofs::Readings::readings, crate::proofs::Sizes::parts_are_smaller))]
    #[cycle(reading)]
    fn range(
        &mut self,
        all: &'a [RawName],
        number: usize,
        names: &mut Vec<Ranged<'a>>,
        term: &'a RawTerm,
    ) -> Result<Option<Step>, Memory>
        requires { and_sides term.now ≡ None }
        ensures ranges { OnOk result (ranges_as names.new.items ≡ meant.ranges (around_of self.old).max
            (names_of self.old) all.now number (ranges_as names.old.items) term.now) }
        ensures kept { IfOk result (λ k. StaysKept (around_of self.old).max (names_of self.old)
            (bound_names all.now) k term.now) }
        ensures stands { OnOk result (Stands self.old self.new) }
    {
        let Some(conjunct) = ranging_conjunct(all, names, term) else {
            return Ok(None);
        };
        let read = self.read(conjunct.side)?;
        if is_lasting(conjunct.op, &read.outcome) {
            return Ok(kept_if(is_plain(all, conjunct.side), read));
        }
        let read = placed(false, conjunct.side, read);
        let found = range(self.alloc, conjunct.op, read.outcome)?;
        take_range(names, conjunct.place, number, found);
        Ok(None)
    }

    // The conjuncts that gave no range go after those that are left so far, joined to the left; the right sides that
    // are kept are not read again. The first conjunct has this number; the number of the first one after the term is
    // answered.
    #[tactic(auto, using(crate::proofs::Remembered::remaining, crate::proofs::Readings::readings, crate::proofs::Sizes::parts_are_smaller))]
    #[cycle(reading)]
    fn rest(
        &mut self,
        names: &[Ranged<'a>],
        number: usize,
        left_over: &mut Option<Step>,
        kept: &mut VecDeque<Option<Step>>,
        term: &'a RawTerm,
    ) -> Result<usize, Memory>
        ensures rest { OnOk result ((ts : List RawTree) → AreKept (around_of self.old).max (names_of self.old)
            kept.old.items (conjuncts term.now ++ ts) → (before : Option Reading) → IsRest left_over.old before →
            IsRest left_over.new (meant.rest (around_of self.old).max (names_of self.old)
            (ranges_as names.now) number before term.now)) }
        ensures kept { OnOk result ((ts : List RawTree) → AreKept (around_of self.old).max (names_of self.old)
            kept.old.items (conjuncts term.now ++ ts) → AreKept (around_of self.old).max (names_of self.old)
            kept.new.items ts) }
        ensures count { IfOk result (λ n. n ≡ number + length (conjuncts term.now)) }
        ensures stands { OnOk result (Stands self.old self.new) }
    {
        if let Some((left, right)) = and_sides(term) {
            let next = self.rest(names, number, left_over, kept, left)?;
            return self.rest(names, next, left_over, kept, right);
        }
        let side = next_kept(kept);
        if is_used(number, names) {
            return following(number);
        }
        let read = self.conjunct(side, term)?;
        let read = placed(true, term, read);
        *left_over = Some(with_conjunct(self.alloc, left_over.take(), read)?);
        following(number)
    }
}

/// The names of a comprehension or lambda with their ranges, and what is left of its predicate.
#[derive(Drop)]
pub struct Body<'a> {
    pub names: Vec<Ranged<'a>>,
    pub body: Step,
}

/// Printed bound variables with their ranges, and the first of their faults.
#[derive(Drop)]
pub struct NumberedRanges<'a> {
    pub names: Vec<Ranged<'a>>,
    pub fault: Option<Fault>,
}
