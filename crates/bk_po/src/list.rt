//! The obligations of a development before they are taken apart: by levels and clauses.

ghost use Rattle.std.specs.Prelude.{◌≡◌, ◌++◌, ◌<◌, ◌∷◌, [], map, length, codes, None, IfOk, IfErr, OnOk};
ghost use Rattle.bk_form.specs.Each.{Each};
ghost use Rattle.bk_dev.specs.Development.{level_at};
ghost use Rattle.bk_po.specs.Obligations.{obligation, clause_name, obligation_of, level_obligations, flat_obligations, suffix};
ghost use Rattle.bk_po.specs.Limits.{first_too_large, IsFaultAmong, fault_at};
ghost use Rattle.bk_po.specs.Supposed.{IsKnownAt, FitsClause};

use crate::clause::{Clause, clauses};
use crate::error::PoFault;
use crate::flattening::FlatDevelopment;
use crate::goals::goal;
use crate::hypotheses::{Known, known_at, supposed};
use crate::limits::is_too_large;
use crate::whole::WholeObligation;
use bk_dev::{Kind, Level};
use bk_form::Form;
use bk_io::{Memory, Text};
use bk_wp::WpFault;
use std::alloc::Global;

/// The obligations of a development without `||`, none of them too large.
#[tactic(auto, using(crate::proofs::Laying::laying))]
pub(crate) fn whole_obligations(
    alloc: Global,
    dev: &FlatDevelopment<'_>,
) -> Result<Vec<WholeObligation>, PoFault>
    ensures value { IfOk result (λ list. list.items ≡ flat_obligations dev.now) }
    ensures sizes { OnOk result (first_too_large (flat_obligations dev.now) ≡ None) }
    ensures fault { IfErr result (IsFaultAmong (flat_obligations dev.now)) }
{
    let mut list = Vec::new(alloc);
    let mut properties = Vec::new(alloc);
    let mut facts = Vec::new(alloc);
    for level in 0..level_count(dev) {
        let known = known_at(alloc, dev, level, &mut properties, &mut facts)?;
        add_level(alloc, dev, level, &known, &mut list)?;
    }
    Ok(list)
}

fn level_count(dev: &FlatDevelopment<'_>) -> usize
    ensures { result ≡ length dev.now.levels }
{
    dev.levels.len()
}

// Adds the obligations of a level.
#[tactic(auto, using(crate::proofs::Clauses::clauses_fit))]
fn add_level(
    alloc: Global,
    dev: &FlatDevelopment<'_>,
    level: usize,
    known: &Known,
    list: &mut Vec<WholeObligation>,
) -> Result<(), PoFault>
    requires level { level < length dev.now.levels }
    requires known { IsKnownAt dev.now level known.now }
    ensures value { OnOk result (list.new.items ≡ list.old.items ++ level_obligations dev.now level) }
    ensures sizes { OnOk result (first_too_large (level_obligations dev.now level) ≡ None) }
    ensures fault { IfErr result (IsFaultAmong (level_obligations dev.now level)) }
{
    let clauses = clauses(alloc, dev, level)?;
    add_clauses(alloc, dev, level, known, &clauses, list)
}

// Adds the obligations of these clauses at a level.
#[tactic(auto, using(crate::proofs::Laying::laying))]
fn add_clauses(
    alloc: Global,
    dev: &FlatDevelopment<'_>,
    level: usize,
    known: &Known,
    clauses: &[Clause],
    list: &mut Vec<WholeObligation>,
) -> Result<(), PoFault>
    requires level { level < length dev.now.levels }
    requires known { IsKnownAt dev.now level known.now }
    requires fit { Each (FitsClause dev.now) clauses.now }
    ensures value { OnOk result (list.new.items ≡ list.old.items ++ map (obligation_of dev.now level) clauses.now) }
    ensures sizes { OnOk result (first_too_large (map (obligation_of dev.now level) clauses.now) ≡ None) }
    ensures fault { IfErr result (IsFaultAmong (map (obligation_of dev.now level) clauses.now)) }
{
    for clause in clauses {
        list.push(stated(alloc, dev, level, known, *clause)?)?;
    }
    Ok(())
}

// ---- one obligation

// The obligation of a clause at a level, where it is not too large.
fn stated(
    alloc: Global,
    dev: &FlatDevelopment<'_>,
    level: usize,
    known: &Known,
    clause: Clause,
) -> Result<WholeObligation, PoFault>
    requires level { level < length dev.now.levels }
    requires known { IsKnownAt dev.now level known.now }
    requires fits { FitsClause dev.now clause }
    ensures value { IfOk result (λ o. o ≡ obligation_of dev.now level clause) }
    ensures size { OnOk result (first_too_large (obligation_of dev.now level clause ∷ []) ≡ None) }
    ensures fault { IfErr result (IsFaultAmong (obligation_of dev.now level clause ∷ [])) }
{
    let name = name(alloc, dev, level, clause)?;
    let hypotheses = supposed(alloc, dev, level, known, clause)?;
    match goal(alloc, dev, level, clause) {
        Ok(goal) => whole(name, hypotheses, goal),
        Err(fault) => Err(fault_at(name, fault)),
    }
}

// The obligation of these parts, where it is not too large.
fn whole(name: Text, hypotheses: Vec<Form>, goal: Form) -> Result<WholeObligation, PoFault>
    ensures value { IfOk result (λ o. o ≡ obligation name hypotheses.items goal) }
    ensures size { OnOk result (first_too_large (obligation name hypotheses.items goal ∷ []) ≡ None) }
    ensures fault { IfErr result (IsFaultAmong (obligation name hypotheses.items goal ∷ [])) }
{
    let whole = WholeObligation {
        name,
        hypotheses,
        goal,
    };
    if is_too_large(&whole) {
        return Err(PoFault::TooLarge { name: whole.name });
    }
    Ok(whole)
}

// The fault of the obligation with this name, whose goal has that fault.
fn fault_at(name: Text, fault: WpFault) -> PoFault
    ensures { result ≡ fault_at name fault }
{
    match fault {
        WpFault::TooLarge => PoFault::TooLarge { name },
        WpFault::Memory => PoFault::Memory,
    }
}

// Component.clause
fn name(
    alloc: Global,
    dev: &FlatDevelopment<'_>,
    level: usize,
    clause: Clause,
) -> Result<Text, Memory>
    requires level { level < length dev.now.levels }
    requires fits { FitsClause dev.now clause }
    ensures { IfOk result
        (λ name. name ≡ (level_at dev.now level).name ++ codes "." ++ clause_name dev.now level clause) }
{
    let component = dev.level(level);
    match clause {
        Clause::PropertiesDefined => named_after(alloc, component, b"PROPERTIES.wd"),
        Clause::ValuesMeet => named_after(alloc, component, b"VALUES"),
        Clause::InvariantDefined => named_after(alloc, component, b"INVARIANT.wd"),
        Clause::AssertionsDefined => named_after(alloc, component, b"ASSERTIONS.wd"),
        Clause::AssertionsHold => named_after(alloc, component, b"ASSERTIONS"),
        Clause::Initialisation => named_after(alloc, component, b"INITIALISATION"),
        Clause::InitialisationDefined => defined_after(alloc, component, b"INITIALISATION"),
        Clause::Operation(operation) => {
            named_after(alloc, component, dev.operation_name(operation))
        }
        Clause::OperationDefined(operation) => {
            defined_after(alloc, component, dev.operation_name(operation))
        }
    }
}

// The component's name, and this after it.
fn named_after(alloc: Global, level: &Level, clause: &[u8]) -> Result<Text, Memory>
    ensures { IfOk result (λ name. name ≡ level.now.name ++ codes "." ++ clause.now) }
{
    let mut name = Vec::from_slice(alloc, level.name.as_bytes())?;
    name.extend_from_slice(b".")?;
    name.extend_from_slice(clause)?;
    Ok(Text::from_bytes(name))
}

// The same with .wd after it, and at an implementation with .chk.
fn defined_after(alloc: Global, level: &Level, clause: &[u8]) -> Result<Text, Memory>
    ensures { IfOk result (λ name. name ≡ level.now.name ++ codes "." ++ (clause.now ++ suffix level.now)) }
{
    let mut name = named_after(alloc, level, clause)?.into_bytes();
    name.extend_from_slice(suffix(level))?;
    Ok(Text::from_bytes(name))
}

fn suffix(level: &Level) -> &'static [u8]
    ensures { result.now ≡ suffix level.now }
{
    match level.kind {
        Kind::Implementation => b".chk",
        Kind::Machine | Kind::Refinement => b".wd",
    }
}
