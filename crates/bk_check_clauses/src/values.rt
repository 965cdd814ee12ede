// The values of constants, and the sizes of deferred sets.

ghost use Rattle.std.specs.Prelude.{◌≡◌, ◌&&◌, ◌++◌, [], not, IfOk, OnOk};
ghost use Rattle.bk_raw.specs.Errors.Blame.{blame};
ghost use Rattle.bk_elab_terms.specs.Shown.{told};
ghost use Rattle.bk_elab_terms.specs.Visible.{meaning_of, typing_of, visible_names};
ghost use Rattle.bk_form.specs.Table.{listed_size};
ghost use Rattle.bk_gsl.specs.State.{among};
ghost use Rattle.bk_statics.specs.LevelOf as made;
ghost use Rattle.bk_scope.specs.Shown.{refs, above_shown};
ghost use Rattle.bk_statics.specs.SubFaults.{is_again};
ghost use Rattle.bk_statics.specs.Typings.{set_named, target, type_named, variable_in, variable_named};
ghost use Rattle.bk_check_clauses.specs.Kept.{value_faults_by};
ghost use Rattle.bk_statics.specs.ValueFaults as meant;

use bk_dev::Kind;
use bk_elab_terms::{Fault, Standing, Visible, earlier};
use bk_form::{Form, Ty, View};
use bk_io::Memory;
use bk_raw::RawValue;
use bk_scope::above::Above;
use bk_scope::component::Component;
use bk_scope::faults::{wrong_value_if, wrong_value_unless};
use bk_scope::plan::Plan;
use bk_scope::sight::{Target, set_named, target_named, variable_of};
use bk_scope::way::Typing;

/// The first fault of an implementation's values.
pub fn value_fault(
    typing: Typing<'_>,
    above: Above<'_>,
    component: &Component<'_>,
    plan: &Plan<'_>,
) -> Result<Option<Fault>, Memory>
    ensures { IfOk result (λ fault. told fault ≡ blame (value_faults_by typing.entry above.entry component.now plan.now)) }
{
    if component.kind != Kind::Implementation {
        return Ok(None);
    }
    let entries = entries_fault(typing, &plan.globals, &component.values)?;
    let values = missing_value(&plan.globals, component);
    let sizes = missing_size(above, &plan.globals, component);
    let missing = earlier(values, sizes);
    Ok(earlier(entries, missing))
}

// That of the entries: one for no constant, one that is no value of its constant, and one for a constant that stands
// before.
#[tactic(auto, using(bk_raw::proofs::Blamed::blames))]
fn entries_fault<'a>(
    typing: Typing<'a>,
    globals: &'a [Visible<'a>],
    values: &[&RawValue],
) -> Result<Option<Fault>, Memory>
    ensures { IfOk result (λ fault. told fault ≡ blame (meant.entry_value_faults typing.entry.max (typing_of typing.entry.types.now)
        (visible_names globals.now) [] (refs values.now))) }
{
    let mut fault = None;
    for (index, entry) in values.iter().enumerate() {
        let value = value_of(typing, globals, entry)?;
        let again = is_valued_before(globals, &values[..index], entry);
        fault = earlier(
            fault,
            wrong_value_unless(is_right(&value, again), entry.name.at),
        );
    }
    Ok(fault)
}

// Whether there is a value, for a constant that does not stand before.
fn is_right(value: &Option<Form>, again: bool) -> bool
    ensures { result ≡ (meant.is_there value.now && not again) }
{
    value.is_some() && !again
}

// Whether one of these entries is for the constant of another.
fn is_valued_before(globals: &[Visible<'_>], values: &[&RawValue], entry: &RawValue) -> bool
    ensures { result ≡ is_again (meant.valued (visible_names globals.now) (refs values.now))
        (target (visible_names globals.now) entry.now.name.text) }
{
    match target_named(globals, entry.name.text.as_bytes()) {
        Target::Variable(constant) => is_valued(globals, values, constant),
        _ => false,
    }
}

// Whether one of these entries is for the constant.
fn is_valued(globals: &[Visible<'_>], values: &[&RawValue], constant: u32) -> bool
    ensures { result ≡ among (meant.valued (visible_names globals.now) (refs values.now)) constant }
{
    for entry in values {
        if target_named(globals, entry.name.text.as_bytes()).is_variable(constant) {
            return true;
        }
    }
    false
}

// That of constants without a value, at the implementation's name.
fn missing_value(globals: &[Visible<'_>], component: &Component<'_>) -> Option<Fault>
    ensures { told result ≡ blame (meant.without_value component.now.name.now.at
        (meant.valued (visible_names globals.now) (refs component.now.values.items)) (visible_names globals.now)) }
{
    let mut fault = None;
    for name in globals {
        let is_missing = lacks_value(globals, &component.values, *name);
        fault = earlier(fault, wrong_value_if(is_missing, component.name.at));
    }
    fault
}

// Whether a name is a constant's for which none of these entries is.
fn lacks_value(globals: &[Visible<'_>], values: &[&RawValue], name: Visible<'_>) -> bool
    ensures { result ≡ meant.is_missing (meant.valued (visible_names globals.now) (refs values.now))
        (variable_in (meaning_of name.entry.meaning)) }
{
    match name.meaning {
        Standing::Variable(constant) => !is_valued(globals, values, constant),
        _ => false,
    }
}

// That of sets above without a size, at the implementation's name.
fn missing_size(
    above: Above<'_>,
    globals: &[Visible<'_>],
    component: &Component<'_>,
) -> Option<Fault>
    ensures { told result ≡ blame (meant.without_size component.now.name.now.at (visible_names globals.now)
        (refs component.now.values.items) 0 (above_shown above.entry).table.sets) }
{
    let mut fault = None;
    for set in 0..above.sets() {
        let is_missing = lacks_size(above, globals, &component.values, set as u32);
        fault = earlier(fault, wrong_value_if(is_missing, component.name.at));
    }
    fault
}

// Whether a set has no size, and none of these entries is for it.
fn lacks_size(above: Above<'_>, globals: &[Visible<'_>], values: &[&RawValue], set: u32) -> bool
    ensures { result ≡ meant.lacks_size (visible_names globals.now) (refs values.now) set
        (listed_size (above_shown above.entry).table set) }
{
    above.size(set) == 0 && !is_entered(globals, values, set)
}

// Whether one of these entries is for the set.
fn is_entered(globals: &[Visible<'_>], values: &[&RawValue], set: u32) -> bool
    ensures { result ≡ meant.is_entered (visible_names globals.now) (refs values.now) set }
{
    for entry in values {
        if is_for(globals, entry, set) {
            return true;
        }
    }
    false
}

// Whether an entry is for the set.
fn is_for(globals: &[Visible<'_>], entry: &RawValue, set: u32) -> bool
    ensures { result ≡ meant.is_number set (set_named (visible_names globals.now) entry.now.name.text) }
{
    match set_named(globals, entry.name.text.as_bytes()) {
        Some(named) => named == set,
        None => false,
    }
}

// The value that an entry gives to its constant, if it is one.
fn value_of<'a>(
    typing: Typing<'a>,
    globals: &'a [Visible<'a>],
    entry: &RawValue,
) -> Result<Option<Form>, Memory>
    ensures { IfOk result (λ f. f ≡ made.value_of typing.entry.max (typing_of typing.entry.types.now) (visible_names globals.now) entry.now) }
{
    let asked = typing.under(globals).value(&entry.value)?;
    let Some((form, ty)) = asked.answer else {
        return Ok(None);
    };
    let fits = is_value(typing, globals, entry.name.text.as_bytes(), &form, &ty);
    Ok(fits.then_some(form))
}

// Whether a formula of a type is a value of the constant of this name.
fn is_value(typing: Typing<'_>, globals: &[Visible<'_>], text: &[u8], form: &Form, ty: &Ty) -> bool
    ensures { result ≡ (made.is_value_form typing.entry.max form.now
        && made.is_of (type_named (typing_of typing.entry.types.now) (visible_names globals.now) text.now) ty.now) }
{
    is_value_form(typing.max, form) && takes(typing, globals, text, ty)
}

// Whether the constant of this name has the type.
fn takes(typing: Typing<'_>, globals: &[Visible<'_>], text: &[u8], ty: &Ty) -> bool
    ensures { result ≡ made.is_of (type_named (typing_of typing.entry.types.now) (visible_names globals.now) text.now) ty.now }
{
    match target_named(globals, text) {
        Target::Variable(constant) => is_of(typing, constant, ty),
        _ => false,
    }
}

// Whether a formula is a literal within INT, TRUE, FALSE or an element.
fn is_value_form(max: i64, form: &Form) -> bool
    ensures { result ≡ made.is_value_form max form.now }
{
    let most = i128::from(max);
    match form.view() {
        View::Int(value) => -most <= value && value <= most,
        View::Bool(_) | View::Elem { .. } => true,
        _ => false,
    }
}

// Whether a constant has the type.
fn is_of(typing: Typing<'_>, constant: u32, ty: &Ty) -> bool
    ensures { result ≡ made.is_of (typing_of typing.entry.types.now constant) ty.now }
{
    match typing.types.get(constant as usize) {
        Some(Some(own)) => own.equal(ty),
        _ => false,
    }
}

/// The constants with their values, in the order of the entries.
pub fn values_made<'a>(
    typing: Typing<'a>,
    globals: &'a [Visible<'a>],
    values: &[&RawValue],
) -> Result<Vec<(u32, Form)>, Memory>
    ensures { IfOk result (λ vs. vs.items ≡ made.values_made typing.entry.max (typing_of typing.entry.types.now)
        (visible_names globals.now) (refs values.now)) }
{
    let mut found = Vec::new(typing.alloc);
    for entry in values {
        push_value(typing, globals, entry, &mut found)?;
    }
    Ok(found)
}

// A constant with its value, where an entry gives one, goes after those that were found.
fn push_value<'a>(
    typing: Typing<'a>,
    globals: &'a [Visible<'a>],
    entry: &RawValue,
    found: &mut Vec<(u32, Form)>,
) -> Result<(), Memory>
    ensures { OnOk result (found.new.items ≡ found.old.items ++ made.with_value
        (variable_named (visible_names globals.now) entry.now.name.text)
        (made.value_of typing.entry.max (typing_of typing.entry.types.now) (visible_names globals.now) entry.now) []) }
{
    let Some(constant) = variable_of(globals, entry.name.text.as_bytes()) else {
        return Ok(());
    };
    let Some(value) = value_of(typing, globals, entry)? else {
        return Ok(());
    };
    found.push((constant, value))?;
    Ok(())
}
