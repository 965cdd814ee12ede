//! The formula that a term by itself reads as.

ghost use Rattle.std.specs.Prelude.{◌≡◌, Some, IfOk, IfErr};
ghost use Rattle.bk_raw.specs.Meaning.ScopeReading.{formula_in};
ghost use Rattle.bk_elab_terms.specs.Shown.{SaysOf};

use crate::blame::earlier;
use crate::error::ElabFault;
use crate::sight::{Outer, Reader};
use bk_form::{Form, VarTable};
use bk_raw::{RawTerm, Scope};
use std::alloc::Global;

/// The formula that a term by itself reads as in a scope over a table: a predicate, a domain, or an expression that
/// gives a type. A fault is the first of the faults in the term; no limit is told.
#[tactic(auto, using(crate::proofs::Whole::whole))]
pub fn formula(
    alloc: Global,
    raw: &RawTerm,
    scope: &Scope,
    table: &VarTable,
) -> Result<Form, ElabFault>
    ensures formula { IfOk result (λ f. (formula_in table.now scope.now raw.now).answer ≡ Some f) }
    ensures fault { IfErr result (SaysOf (formula_in table.now scope.now raw.now).faults) }
{
    let mut reader = Reader {
        alloc,
        scope: Outer::OverTable(scope, table),
        locals: Vec::new(alloc),
    };
    let read = reader.read(raw)?;
    let place = raw.at;
    let asked = read.outcome.ask_formula(place);
    let first = earlier(read.fault, asked.fault);
    if let Some(fault) = first {
        return Err(ElabFault::Fault {
            number: fault.kind.number(),
            place: fault.place,
        });
    }
    match asked.answer {
        Some(form) => Ok(form),
        None => unreachable!(),
    }
}
