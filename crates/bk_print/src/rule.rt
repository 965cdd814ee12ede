// The text of rules.

ghost use Rattle.std.specs.Prelude.{◌≡◌, ◌++◌, OnOk};
ghost use Rattle.bk_show.specs.Items.{text_of};
ghost use Rattle.bk_print.specs.Held.{part_in, parts_in};
ghost use Rattle.bk_print.specs.Text.{part_items, parts_items, rule_items};

use crate::certificate::write_certificate;
use crate::law::write_law;
use crate::name::write_names;
use crate::parts::{Part, Parts, parts_of};
use crate::place::{write_number, write_place};
use crate::term::{write_term, write_terms};
use crate::word::word;
use bk_form::VarTable;
use bk_io::Memory;
use bk_kernel::Rule;
use std::alloc::Global;

/// Writes a rule after what is written: its word, and each of its parts after a blank.
#[tactic(auto, using(crate::proofs::Pieces::rules))]
pub(crate) fn write_rule(
    alloc: Global,
    out: &mut Vec<u8>,
    types: &VarTable,
    rule: &Rule,
) -> Result<(), Memory>
    ensures { OnOk result (out.new.items ≡ out.old.items ++ text_of (rule_items types.now rule.now)) }
{
    out.extend_from_slice(word(rule))?;
    write_parts(alloc, out, types, parts_of(rule))
}

// Writes parts, each after a blank.
#[tactic(auto, using(crate::proofs::Pieces::rules))]
fn write_parts(
    alloc: Global,
    out: &mut Vec<u8>,
    types: &VarTable,
    parts: Parts<'_>,
) -> Result<(), Memory>
    ensures { OnOk result (out.new.items ≡ out.old.items ++ text_of (parts_items types.now (parts_in parts.entry))) }
{
    match parts {
        Parts::None => Ok(()),
        Parts::One(part) => write_part(alloc, out, types, part),
        Parts::Two(first, second) => {
            write_part(alloc, out, types, first)?;
            write_part(alloc, out, types, second)
        }
    }
}

// Writes a part after a blank.
fn write_part(
    alloc: Global,
    out: &mut Vec<u8>,
    types: &VarTable,
    part: Part<'_>,
) -> Result<(), Memory>
    ensures { OnOk result (out.new.items ≡ out.old.items ++ text_of (part_items types.now (part_in part.entry))) }
{
    match part {
        Part::Number(number) => write_number(out, number),
        Part::Term(term) => write_term(alloc, out, types, term),
        Part::Terms(terms) => write_terms(alloc, out, types, terms),
        Part::Place(place) => write_place(out, place),
        Part::NoPlace => Ok(()),
        Part::Names(names) => write_names(alloc, out, types, names),
        Part::Law(law, terms) => write_law(alloc, out, types, law, terms),
        Part::Certificate(facts, lines) => write_certificate(out, facts, lines),
    }
}
