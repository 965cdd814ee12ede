//! Whether 32 bits number the variables of a development, and the copies that flattening makes of them.

ghost use Rattle.std.specs.Prelude.{◌≡◌, ◌+◌, ℤ, length, IfOk, OnOk};
ghost use Rattle.bk_gsl.specs.Flat.{copied};
ghost use Rattle.bk_dev.specs.Flattened.{copied_in_bodies, copied_in_level, copied_in_levels};
ghost use Rattle.bk_statics.specs.VerdictLaws.{HasRoom};
ghost use Rattle.bk_elab.specs.Answered.{development_below};
ghost use Rattle.bk_scope.specs.Shown.{above_shown};

use crate::levels::Added;
use bk_dev::{Body, Level};
use bk_gsl::{Sub, SubNode, writes};
use bk_io::Memory;
use bk_scope::above::Above;
use bk_scope::number::ahead;
use std::alloc::Global;

// Refuses what 32 bits do not number: the sets, the variables and all copies that flattening makes, with one number left.
pub(crate) fn count_all(alloc: Global, above: Above<'_>, added: &Added) -> Result<(), Memory>
    ensures { OnOk result ((int_max : ℤ) → HasRoom (development_below int_max (above_shown above.entry) added.now)) }
{
    let sets = ahead(0, above.sets())?;
    let _sets = ahead(sets, added.sets.len())?;
    let variables = ahead(0, above.variables())?;
    let number = ahead(variables, added.variables.len())?;
    let number = behind_levels(alloc, number, above.levels())?;
    let _number = behind_levels(alloc, number, &added.own)?;
    Ok(())
}

// The number after the copies that flattening makes in these levels; past 32 bits it is `Memory`.
#[tactic(auto, using(crate::proofs::Rooms::steps))]
fn behind_levels(alloc: Global, first: u32, levels: &[Level]) -> Result<u32, Memory>
    ensures { IfOk result (λ number. number ≡ first + length (copied_in_levels levels.now)) }
{
    let mut number = first;
    for level in levels {
        number = behind_level(alloc, number, level)?;
    }
    Ok(number)
}

// After those of one level.
#[tactic(auto, using(crate::proofs::Rooms::steps))]
fn behind_level(alloc: Global, first: u32, level: &Level) -> Result<u32, Memory>
    ensures { IfOk result (λ number. number ≡ first + length (copied_in_level level.now)) }
{
    let number = behind(alloc, first, &level.init)?;
    behind_bodies(alloc, number, &level.bodies)
}

// After those of several bodies.
#[tactic(auto, using(crate::proofs::Rooms::steps))]
fn behind_bodies(alloc: Global, first: u32, bodies: &[Body]) -> Result<u32, Memory>
    ensures { IfOk result (λ number. number ≡ first + length (copied_in_bodies bodies.now)) }
{
    let mut number = first;
    for body in bodies {
        number = behind(alloc, number, &body.sub)?;
    }
    Ok(number)
}

// After those of a substitution.
#[tactic(auto, using(crate::proofs::Rooms::steps))]
fn behind(alloc: Global, first: u32, sub: &Sub) -> Result<u32, Memory>
    ensures { IfOk result (λ number. number ≡ first + length (copied sub.now)) }
{
    match &*sub.node {
        SubNode::Pre(_, s) => behind(alloc, first, s),
        SubNode::Guard(_, s) => behind(alloc, first, s),
        SubNode::Choice(one, other) => {
            let number = behind(alloc, first, one)?;
            behind(alloc, number, other)
        }
        SubNode::If(_, yes, no) => {
            let number = behind(alloc, first, yes)?;
            behind(alloc, number, no)
        }
        SubNode::Any(_, s) => behind(alloc, first, s),
        SubNode::Seq(one, other) => {
            let number = behind(alloc, first, one)?;
            behind(alloc, number, other)
        }
        SubNode::Par(left, right) => {
            let number = behind(alloc, first, left)?;
            let number = behind(alloc, number, right)?;
            ahead(number, writes(alloc, left)?.len())
        }
        SubNode::While { body, .. } => behind(alloc, first, body),
        SubNode::Assert(_, s) => behind(alloc, first, s),
        _ => Ok(first),
    }
}
