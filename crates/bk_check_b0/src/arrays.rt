// The arrays of an implementation, with the domains that they are declared with.

ghost use Rattle.std.specs.Prelude.{◌≡◌, ◌++◌, ◌∷◌, ◌&&◌, [], Some, IfOk};
ghost use Rattle.bk_dev.specs.Codes.ClueView.{clue_seen};
ghost use Rattle.bk_dev.specs.Development.{Development};
ghost use Rattle.bk_dev.specs.Layout.{has_scalars, indices_of, linked_to, reversed, typing_clue};
ghost use Rattle.bk_statics.specs.ValueFaults.{is_there};
ghost use Rattle.bk_elab_terms.specs.Visible.{typing_of};
ghost use Rattle.bk_form.specs.Table.{variable_type};
ghost use Rattle.bk_check_b0.specs.Arrays.{IsDeclaredBy, AreItsArrays, array_told, is_silent, IsAlone};
ghost use Rattle.bk_statics.specs.Executable as meant;
ghost use Rattle.bk_scope.specs.Shown.{above_shown};

use bk_dev::{Found, Level, clue_in, has_scalars, indices, linked};
use bk_form::{BinOp, Form, View};
use bk_io::Memory;
use bk_scope::above::Above;
use bk_scope::pairs::push_pair;
use bk_scope::way::Typing;
use std::alloc::Global;

// The arrays of a level, which is the last one in this list and stands below these levels, where constants have these
// values.
pub fn array_domains(
    typing: Typing<'_>,
    above: Above<'_>,
    own: &[Level],
    values: &[(u32, Form)],
) -> Result<Vec<(u32, Form)>, Memory>
    requires { IsAlone own.now }
    ensures { IfOk result (λ arrays. AreItsArrays typing.entry (above_shown above.entry) own.now values.now arrays.items) }
{
    let mut found = Vec::new(typing.alloc);
    let level = &own[0];
    for variable in &level.vars {
        let domain = array_domain(typing, above, own, level, values, *variable)?;
        push_pair(&mut found, *variable, domain)?;
    }
    Ok(found)
}

// The domain that a variable of the level is declared with, where it is an array.
fn array_domain(
    typing: Typing<'_>,
    above: Above<'_>,
    own: &[Level],
    level: &Level,
    values: &[(u32, Form)],
    variable: u32,
) -> Result<Option<Form>, Memory>
    requires { own.now ≡ level.now ∷ [] }
    ensures { IfOk result (λ domain. (dev : Development) → IsDeclaredBy dev typing.entry (above_shown above.entry) own.now values.now →
        has_scalars (variable_type dev.table variable) ≡ has_scalars (typing_of typing.entry.types.now variable) → domain ≡ array_told dev variable) }
{
    let found = clue(typing.alloc, above, own, level, variable)?;
    let Some(source) = source_in(typing.alloc, &found)? else {
        return Ok(None);
    };
    if !is_array(typing, values, variable, &source) {
        return Ok(None);
    }
    Ok(Some(source))
}

// D of f : D --> E.
fn source_in(alloc: Global, found: &Found) -> Result<Option<Form>, Memory>
    ensures { IfOk result (λ source. source ≡ meant.domain_in (clue_seen found.now)) }
{
    let Found::InDomain(arrow) = found else {
        return Ok(None);
    };
    let View::Bin(BinOp::TotalFunctions, source, _) = arrow.view() else {
        return Ok(None);
    };
    Ok(Some(source.copy(alloc)?))
}

// Whether a variable that is a function from this source is an array.
fn is_array(typing: Typing<'_>, values: &[(u32, Form)], variable: u32, source: &Form) -> bool
    ensures { result ≡ (has_scalars (typing_of typing.entry.types.now variable)
        && is_there (indices_of typing.entry.max values.now source.now)) }
{
    gives_scalars(typing, variable) && indices(typing.max, values, source).is_some()
}

// Whether a number has the type of functions to scalars.
fn gives_scalars(typing: Typing<'_>, variable: u32) -> bool
    ensures { result ≡ has_scalars (typing_of typing.entry.types.now variable) }
{
    match typing.types.get(variable as usize) {
        Some(Some(ty)) => has_scalars(ty),
        _ => false,
    }
}

// What the level's invariant says of the variable, or where it is silent the nearest above under the same name.
fn clue(
    alloc: Global,
    above: Above<'_>,
    own: &[Level],
    level: &Level,
    variable: u32,
) -> Result<Found, Memory>
    requires { own.now ≡ level.now ∷ [] }
    ensures { IfOk result (λ found. clue_seen found ≡
        typing_clue (Some variable) (reversed ((above_shown above.entry).levels ++ own.now) [])) }
{
    let found = clue_in(alloc, own, variable)?;
    if !is_silent(&found) {
        return Ok(found);
    }
    let higher = clue_above(alloc, above, level, variable)?;
    Ok(higher)
}

// Whether nothing is said.
fn is_silent(found: &Found) -> bool
    ensures { result ≡ is_silent (clue_seen found.now) }
{
    matches!(found, Found::Silent)
}

// What the levels above say of the variable that this one is linked to.
fn clue_above(
    alloc: Global,
    above: Above<'_>,
    level: &Level,
    variable: u32,
) -> Result<Found, Memory>
    ensures { IfOk result (λ found. clue_seen found ≡
        typing_clue (linked_to variable level.now.links) (reversed (above_shown above.entry).levels [])) }
{
    let Some(upper) = linked(&level.links, variable) else {
        return Ok(Found::Silent);
    };
    let found = clue_in(alloc, above.levels(), upper)?;
    Ok(found)
}
