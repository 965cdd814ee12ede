// The text of laws and of the terms that they take.

ghost use Rattle.std.specs.Prelude.{◌≡◌, ◌++◌, ◌∷◌, [], OnOk};
ghost use Rattle.bk_show.specs.Items.{blank, text_of};
ghost use Rattle.bk_print.specs.Text.{law_items, law_name, picks_items, series_letter};

use crate::term::write_list;
use bk_form::{Form, VarTable};
use bk_io::Memory;
use itoa::Buffer;
use std::alloc::Global;

/// Writes a law after a blank, with the terms that it takes.
#[tactic(auto, using(crate::proofs::Pieces::laws))]
pub(crate) fn write_law(
    alloc: Global,
    out: &mut Vec<u8>,
    types: &VarTable,
    law: u16,
    terms: &[Form],
) -> Result<(), Memory>
    ensures { OnOk result (out.new.items ≡ out.old.items ++ text_of (blank ∷ law_items types.now law terms.now)) }
{
    out.extend_from_slice(b" ")?;
    write_law_name(out, law)?;
    write_picks(alloc, out, types, terms)
}

// Writes the name of a law: a letter and its number among those of the letter.
#[tactic(auto, using(crate::proofs::Pieces::laws))]
fn write_law_name(out: &mut Vec<u8>, law: u16) -> Result<(), Memory>
    ensures { OnOk result (out.new.items ≡ out.old.items ++ law_name law) }
{
    out.extend_from_slice(series(law))?;
    out.extend_from_slice(Buffer::new().format(law % 100).as_bytes())?;
    Ok(())
}

// The letter of a law: logic, order and counting, sets, or relations and functions.
fn series(law: u16) -> &'static [u8]
    ensures { result.now ≡ series_letter law ∷ [] }
{
    if law < 100 {
        return b"G";
    }
    if law < 200 {
        return b"O";
    }
    if law < 300 {
        return b"S";
    }
    b"M"
}

// Writes the terms that a law takes, in parentheses where there are some.
#[tactic(auto, using(crate::proofs::Pieces::laws))]
fn write_picks(
    alloc: Global,
    out: &mut Vec<u8>,
    types: &VarTable,
    terms: &[Form],
) -> Result<(), Memory>
    ensures { OnOk result (out.new.items ≡ out.old.items ++ text_of (picks_items types.now terms.now)) }
{
    if terms.is_empty() {
        return Ok(());
    }
    out.extend_from_slice(b"(")?;
    write_list(alloc, out, types, terms)?;
    out.extend_from_slice(b")")?;
    Ok(())
}
