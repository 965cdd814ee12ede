// The text of terms in rules.

ghost use Rattle.std.specs.Prelude.{◌≡◌, ◌++◌, ◌∷◌, map, OnOk};
ghost use Rattle.bk_show.specs.Items.{blank, text_of};
ghost use Rattle.bk_show.specs.Shown.{items};
ghost use Rattle.bk_print.specs.Text.{behind_each, comma, terms_items};

use bk_form::{Form, VarTable};
use bk_io::Memory;
use bk_show::show;
use std::alloc::Global;

/// Writes a term after a blank.
#[tactic(auto, using(crate::proofs::Pieces::rules))]
pub(crate) fn write_term(
    alloc: Global,
    out: &mut Vec<u8>,
    types: &VarTable,
    term: &Form,
) -> Result<(), Memory>
    ensures { OnOk result (out.new.items ≡ out.old.items ++ text_of (blank ∷ items types.now 0 term.now)) }
{
    out.extend_from_slice(b" ")?;
    write_shown(alloc, out, types, term)
}

/// Writes terms after a blank, with commas between.
#[tactic(auto, using(crate::proofs::Pieces::rules))]
pub(crate) fn write_terms(
    alloc: Global,
    out: &mut Vec<u8>,
    types: &VarTable,
    terms: &[Form],
) -> Result<(), Memory>
    ensures { OnOk result (out.new.items ≡ out.old.items ++ text_of (blank ∷ terms_items types.now terms.now)) }
{
    out.extend_from_slice(b" ")?;
    write_list(alloc, out, types, terms)
}

/// Writes terms with commas between.
#[tactic(auto, using(crate::proofs::Pieces::rules))]
pub(crate) fn write_list(
    alloc: Global,
    out: &mut Vec<u8>,
    types: &VarTable,
    terms: &[Form],
) -> Result<(), Memory>
    ensures { OnOk result (out.new.items ≡ out.old.items ++ text_of (terms_items types.now terms.now)) }
{
    match terms {
        [] => Ok(()),
        [first, rest @ ..] => {
            write_shown(alloc, out, types, first)?;
            write_more(alloc, out, types, rest)
        }
    }
}

// Writes terms, each after a comma.
fn write_more(
    alloc: Global,
    out: &mut Vec<u8>,
    types: &VarTable,
    terms: &[Form],
) -> Result<(), Memory>
    ensures { OnOk result (out.new.items ≡
        out.old.items ++ text_of (behind_each comma (map (items types.now 0) terms.now))) }
{
    for term in terms {
        out.extend_from_slice(b", ")?;
        write_shown(alloc, out, types, term)?;
    }
    Ok(())
}

// Writes a term.
fn write_shown(
    alloc: Global,
    out: &mut Vec<u8>,
    types: &VarTable,
    term: &Form,
) -> Result<(), Memory>
    ensures { OnOk result (out.new.items ≡ out.old.items ++ text_of (items types.now 0 term.now)) }
{
    let text = show(alloc, term, types)?;
    out.extend_from_slice(&text)?;
    Ok(())
}
