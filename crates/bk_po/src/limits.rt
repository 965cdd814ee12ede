//! How large the obligations of a development may be.

ghost use Rattle.std.specs.Prelude.{◌≡◌, ◌⊎◌, ◌^◌, ◌-◌, min, length, None, IfErr, OnOk};
ghost use Rattle.bk_po.specs.Obligations.{numbered_sequents};
ghost use Rattle.bk_po.specs.Limits.{nodes_of, height_of, is_too_large, first_too_large, all_nodes, PassNoLimit, IsFaultOf};
ghost use Rattle.bk_po.specs.declared.error.PoFault.TheVariants.{TooMany};

use crate::error::PoFault;
use crate::splits::count;
use crate::whole::WholeObligation;
use bk_limits::{GREATEST_HEIGHT, MOST_NODES, MOST_NODES_TOGETHER, MOST_OBLIGATIONS};

/// The number of the limit of sequents.
const LIMIT_OF_SEQUENTS: u8 = 7;

/// The number of the limit of nodes.
const LIMIT_OF_NODES: u8 = 14;

/// Whether it has too many nodes, or too many on some way down.
pub(crate) fn is_too_large(whole: &WholeObligation) -> bool
    ensures { result ≡ is_too_large whole.now }
{
    nodes(whole) > MOST_NODES || height(whole) > GREATEST_HEIGHT
}

/// How many nodes all have together, or 2^64 - 1 if they are more.
pub(crate) fn all_nodes(wholes: &[WholeObligation]) -> u64
    ensures { result ≡ min (all_nodes wholes.now) (2 ^ 64 - 1) }
{
    let mut total = 0u64;
    for whole in wholes {
        total = total.saturating_add(nodes(whole));
    }
    total
}

/// How many sequents all are taken apart into, or 2^64 - 1 if they are more.
#[tactic(auto, using(std::proofs::lemmas::Grind::common_steps, crate::proofs::Numbering::numbered_count))]
pub(crate) fn all_sequents(wholes: &[WholeObligation]) -> u64
    ensures { result ≡ min (length (numbered_sequents wholes.now)) (2 ^ 64 - 1) }
{
    let mut total = 0u64;
    for whole in wholes {
        total = total.saturating_add(count(&whole.goal));
    }
    total
}

/// Whether all together stay within the limits of sequents, which is looked at first, and of nodes.
pub(crate) fn check_together(wholes: &[WholeObligation]) -> Result<(), PoFault>
    requires { first_too_large wholes.now ≡ None }
    ensures ok { OnOk result (PassNoLimit wholes.now) }
    ensures fault { IfErr result (IsFaultOf wholes.now) }
    ensures spent { IfErr result (λ fault. fault ≡ TooMany 7 ⊎ fault ≡ TooMany 14) }
{
    if all_sequents(wholes) > MOST_OBLIGATIONS {
        return Err(PoFault::TooMany(LIMIT_OF_SEQUENTS));
    }
    if all_nodes(wholes) > MOST_NODES_TOGETHER {
        return Err(PoFault::TooMany(LIMIT_OF_NODES));
    }
    Ok(())
}

// How many nodes it has, or 2^64 - 1 if they are more.
fn nodes(whole: &WholeObligation) -> u64
    ensures { result ≡ min (nodes_of whole.now) (2 ^ 64 - 1) }
{
    let mut total = whole.goal.size();
    for hypothesis in &whole.hypotheses {
        total = total.saturating_add(hypothesis.size());
    }
    total
}

// How many nodes lie on the longest way down its formulas.
fn height(whole: &WholeObligation) -> u32
    ensures { result ≡ height_of whole.now }
{
    let mut greatest = whole.goal.depth();
    for hypothesis in &whole.hypotheses {
        greatest = greatest.max(hypothesis.depth());
    }
    greatest
}
