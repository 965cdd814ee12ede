// Parts of rules.

ghost use Rattle.std.specs.Prelude.{IfOk, map};
ghost use Rattle.std.specs.List.{AllZip};
ghost use Rattle.bk_raw.specs.Codes.ScriptView.{written_place, line_of, part_of};
ghost use Rattle.bk_raw.specs.Trees.ScriptTree as meant;
ghost use Rattle.bk_scripts.specs.Finding.{IsMeaning};
ghost use Rattle.bk_scripts.specs.Parts.{NumberMeans, NumbersMean, PlaceMeans, MultipleMeans, LineMeans, NumberPart};
ghost use Rattle.bk_scripts.specs.Parts.{TermPart, TermsPart, NamesPart, PlacePart, PerhapsPart, LawPart, CertificatePart};
ghost use Rattle.bk_scripts.specs.Reading.{around_of};

use crate::around::Around;
use crate::law::law_number;
use bk_form::Form;
use bk_io::Memory;
use bk_kernel::Place;
use bk_lin::Line;
use bk_raw::{RawLine, RawMultiple, RawPlace, RulePart};
use std::alloc::Global;

// The same number, if it has 32 bits.
fn number(written: u128) -> Option<u32>
    ensures { IsMeaning (NumberMeans written) result }
{
    u32::try_from(written).ok()
}

fn numbers(alloc: Global, written: &[u128]) -> Result<Option<Vec<u32>>, Memory>
    ensures { IfOk result (IsMeaning (NumbersMean written.now)) }
{
    let mut numbers = Vec::new(alloc);
    for raw in written {
        let Some(number) = number(*raw) else {
            return Ok(None);
        };
        numbers.push(number)?;
    }
    Ok(Some(numbers))
}

fn place(alloc: Global, written: &RawPlace) -> Result<Option<Place>, Memory>
    ensures { IfOk result (IsMeaning (PlaceMeans (written_place written.now))) }
{
    match written {
        RawPlace::Goal(path) => Ok(numbers(alloc, path)?.map(Place::Goal)),
        RawPlace::Hyp(hypothesis, path) => {
            let Some(hypothesis) = number(*hypothesis) else {
                return Ok(None);
            };
            Ok(numbers(alloc, path)?.map(|path| Place::Hyp(hypothesis, path)))
        }
    }
}

fn multiple(written: &RawMultiple) -> Option<(i128, u32)>
    ensures { IsMeaning (MultipleMeans written.now) result }
{
    let fact = number(written.fact)?;
    Some((written.multiplier, fact))
}

fn multiples(alloc: Global, written: &[RawMultiple]) -> Result<Option<Vec<(i128, u32)>>, Memory>
    ensures { IfOk result (IsMeaning (λ ms. AllZip MultipleMeans written.now ms.items)) }
{
    let mut multiples = Vec::new(alloc);
    for raw in written {
        let Some(multiple) = multiple(raw) else {
            return Ok(None);
        };
        multiples.push(multiple)?;
    }
    Ok(Some(multiples))
}

fn quotient(fact: u128, by: u128) -> Option<Line>
    ensures { IsMeaning (LineMeans (meant.quotient fact by)) result }
{
    let fact = number(fact)?;
    let by = i128::try_from(by).ok()?;
    Some(Line::Div { fact, by })
}

fn line(alloc: Global, written: &RawLine) -> Result<Option<Line>, Memory>
    ensures { IfOk result (IsMeaning (LineMeans (line_of written.now))) }
{
    match written {
        RawLine::Sum(sum) => Ok(multiples(alloc, sum)?.map(Line::Sum)),
        RawLine::Quotient(fact, by) => Ok(quotient(*fact, *by)),
    }
}

fn lines(alloc: Global, written: &[RawLine]) -> Result<Option<Vec<Line>>, Memory>
    ensures { IfOk result (IsMeaning (λ lines. AllZip LineMeans (map line_of written.now) lines.items)) }
{
    let mut lines = Vec::new(alloc);
    for raw in written {
        let Some(line) = line(alloc, raw)? else {
            return Ok(None);
        };
        lines.push(line)?;
    }
    Ok(Some(lines))
}

// The number of a hypothesis.
pub(crate) fn number_part(part: &RulePart) -> Option<u32>
    ensures { IsMeaning (NumberPart (part_of part.now)) result }
{
    match part {
        RulePart::Number(written) => number(*written),
        _ => None,
    }
}

// A place.
pub(crate) fn place_part(alloc: Global, part: &RulePart) -> Result<Option<Place>, Memory>
    ensures { IfOk result (IsMeaning (PlacePart (part_of part.now))) }
{
    match part {
        RulePart::Place(written) => place(alloc, written),
        _ => Ok(None),
    }
}

// A place, or none.
pub(crate) fn perhaps_part(alloc: Global, part: &RulePart) -> Result<Option<Option<Place>>, Memory>
    ensures { IfOk result (IsMeaning (PerhapsPart (part_of part.now))) }
{
    match part {
        RulePart::NoPlace => Ok(Some(None)),
        RulePart::Place(written) => Ok(place(alloc, written)?.map(Some)),
        _ => Ok(None),
    }
}

// Facts by their numbers, and lines.
pub(crate) fn certificate_part(
    alloc: Global,
    part: &RulePart,
) -> Result<Option<(Vec<u32>, Vec<Line>)>, Memory>
    ensures { IfOk result (IsMeaning (CertificatePart (part_of part.now))) }
{
    let RulePart::Certificate(facts, certificate) = part else {
        return Ok(None);
    };
    let Some(facts) = numbers(alloc, facts)? else {
        return Ok(None);
    };
    let Some(lines) = lines(alloc, certificate)? else {
        return Ok(None);
    };
    Ok(Some((facts, lines)))
}

impl Around<'_> {
    // A term.
    pub(crate) fn term_part(&self, part: &RulePart) -> Result<Option<Form>, Memory>
        ensures { IfOk result (IsMeaning (TermPart (around_of self.now) (part_of part.now))) }
    {
        match part {
            RulePart::Term(term) => self.term(term),
            _ => Ok(None),
        }
    }

    // Terms.
    pub(crate) fn terms_part(&self, part: &RulePart) -> Result<Option<Vec<Form>>, Memory>
        ensures { IfOk result (IsMeaning (TermsPart (around_of self.now) (part_of part.now))) }
    {
        match part {
            RulePart::Terms(terms) => self.terms(terms),
            _ => Ok(None),
        }
    }

    // Names.
    pub(crate) fn names_part(&self, part: &RulePart) -> Result<Option<Vec<u32>>, Memory>
        ensures { IfOk result (IsMeaning (NamesPart (around_of self.now) (part_of part.now))) }
    {
        match part {
            RulePart::Typed(names) => self.names(names),
            _ => Ok(None),
        }
    }

    // A law, and the formulas that it takes.
    pub(crate) fn law_part(&self, part: &RulePart) -> Result<Option<(u16, Vec<Form>)>, Memory>
        ensures { IfOk result (IsMeaning (LawPart (around_of self.now) (part_of part.now))) }
    {
        let RulePart::Law(name, terms) = part else {
            return Ok(None);
        };
        let Some(law) = law_number(name.as_bytes()) else {
            return Ok(None);
        };
        let Some(picks) = self.terms(terms)? else {
            return Ok(None);
        };
        Ok(Some((law, picks)))
    }
}
