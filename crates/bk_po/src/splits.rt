//! The names of the sequents that goals are taken apart into.

ghost use Rattle.std.specs.Prelude.{◌≡◌, ◌^◌, ◌-◌, ◌++◌, [], min, map, length, codes, decimal, IfOk, OnOk};
ghost use Rattle.bk_po.specs.Obligations.{numbered_from, numbered_sequents};
ghost use Rattle.bk_seq.specs.Sequents.{split};
ghost use Rattle.bk_seq.specs.Sequents.{sequent_of};
ghost use Rattle.bk_po.specs.Shown.{named_sequent};

use crate::obligation::Obligation;
use crate::whole::WholeObligation;
use bk_form::{BinOp, Form, View};
use bk_io::{Memory, Text};
use bk_seq::{Sequent, split};
use itoa::Buffer;
use std::alloc::Global;

/// How many sequents a goal is taken apart into, or 2^64 - 1 if they are more.
pub(crate) fn count(goal: &Form) -> u64
    ensures { result ≡ min (length (split [] goal.now)) (2 ^ 64 - 1) }
{
    match goal.view() {
        View::Bin(BinOp::And, left, right) => count(left).saturating_add(count(right)),
        View::Bin(BinOp::Imp, _, right) => count(right),
        View::True => 0,
        _ => 1,
    }
}

/// The obligations taken apart: the sequents of each name are numbered from 1.
pub(crate) fn numbered(alloc: Global, wholes: &[WholeObligation]) -> Result<Vec<Obligation>, Memory>
    ensures { IfOk result (λ list. map named_sequent list.items ≡ numbered_sequents wholes.now) }
{
    let mut list = Vec::new(alloc);
    for whole in wholes {
        let hypotheses = Form::copy_all(&whole.hypotheses, alloc)?;
        let sequents = split(alloc, hypotheses, whole.goal.copy(alloc)?)?;
        add_numbered(alloc, &whole.name, sequents, &mut list)?;
    }
    Ok(list)
}

// Adds the sequents under a name, numbered from 1.
fn add_numbered(
    alloc: Global,
    name: &Text,
    sequents: Vec<Sequent>,
    found: &mut Vec<Obligation>,
) -> Result<(), Memory>
    ensures { OnOk result (map named_sequent found.new.items ≡ map named_sequent found.old.items
        ++ numbered_from 1 name.now (map sequent_of sequents.items)) }
{
    for (index, sequent) in sequents.into_iter().enumerate() {
        found.push(Obligation {
            name: numbered_name(alloc, name, index + 1)?,
            sequent,
        })?;
    }
    Ok(())
}

// The name with a number after it.
fn numbered_name(alloc: Global, name: &Text, number: usize) -> Result<Text, Memory>
    ensures { IfOk result (λ text. text ≡ name.now ++ codes "." ++ decimal number) }
{
    let mut bytes = Vec::from_slice(alloc, name.as_bytes())?;
    bytes.extend_from_slice(b".")?;
    bytes.extend_from_slice(Buffer::new().format(number).as_bytes())?;
    Ok(Text::from_bytes(bytes))
}
