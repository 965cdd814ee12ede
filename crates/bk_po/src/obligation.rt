//! The obligations of a development.

ghost use Rattle.std.specs.Prelude.{◌≡◌, map, IfOk, IfErr, OnOk};
ghost use Rattle.bk_po.specs.Obligations.{obligations, numbered_obligations};
ghost use Rattle.bk_po.specs.Laws.{AreEnough};
ghost use Rattle.bk_po.specs.Limits.{PassNoLimit, IsFaultOf};
ghost use Rattle.bk_po.specs.Shown.{named_sequent};

use crate::error::PoFault;
use crate::flattening::flattened;
use crate::limits::check_together;
use crate::list::whole_obligations;
use crate::splits::numbered;
use bk_dev::Development;
use bk_io::Text;
use bk_seq::Sequent;
use std::alloc::Global;

/// A sequent to be proved, with its name: component, clause or operation, and number, as `Counter_i.get.2`.
#[derive(Drop)]
pub struct Obligation {
    pub name: Text,
    pub sequent: Sequent,
}

/// The obligations of a development: by components, clauses and operations, each goal taken apart and its sequents numbered from 1 (B-Book,
/// Theory of Abstract Machines and Refinement). Each `||` is rewritten by copies first. Where each is
/// valid the development is correct.
#[tactic(auto, using(crate::proofs::Laying::among_is_of))]
pub fn obligations(alloc: Global, dev: &Development) -> Result<Vec<Obligation>, PoFault>
    ensures value { IfOk result (λ list. map named_sequent list.items ≡ numbered_obligations dev.now) }
    ensures enough { IfOk result (λ list. AreEnough dev.now (map named_sequent list.items)) }
    ensures within { OnOk result (PassNoLimit (obligations dev.now)) }
    ensures fault { IfErr result (IsFaultOf (obligations dev.now)) }
{
    dev.facts();
    let flat = flattened(alloc, dev)?;
    let wholes = whole_obligations(alloc, &flat)?;
    check_together(&wholes)?;
    Ok(numbered(alloc, &wholes)?)
}
