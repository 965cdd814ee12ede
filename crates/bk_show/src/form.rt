// The text of formulas.

ghost use Rattle.std.specs.Prelude.{◌≡◌, ◌+◌, ◌++◌, ◌∷◌, [], not, suc, length, IfOk, OnOk};
ghost use Rattle.bk_form.specs.Formula.{formula_height, formulas_height, formulas_of};
ghost use Rattle.bk_form.specs.Replacement.{count};
ghost use Rattle.bk_show.specs.Items.{text_of};
ghost use Rattle.bk_show.specs.Counted.{IsCounted};
ghost use Rattle.bk_show.specs.Shown.{shown, items, ranges_items, is_bare, is_infix, sides, enclosed, enclosed_if, unary_form};
ghost use Rattle.bk_show.specs.Shown.{unary_items, binary_form, binary_items, binder_items, comprehension_items, lambda_items};

use crate::binder::{comma, write_bound, write_bounds};
use crate::name::{name_of_domain, name_of_element, name_of_variable};
use crate::notation::{BinaryForm, UnaryForm, sign, word};
use crate::ty::write_type;
use bk_form::{BinOp, Form, Ty, UnOp, VarTable, View};
use bk_io::Memory;
use itoa::Buffer;
use std::alloc::Global;

/// The text of a formula, with the names of the table. An operator between two operands stands in parentheses unless it
/// is the whole formula or fills brackets of the notation; bound variables are `$1`, `$2` and so on from the outermost
/// on, each with its type or its range where it is bound; an empty set has its type, as in `{:POW(INTEGER)}`. What the
/// table does not list has no name, and a bound number that no binder in the formula binds is `$0`.
pub fn show(alloc: Global, form: &Form, table: &VarTable) -> Result<Vec<u8>, Memory>
    ensures { IfOk result (λ text. text.items ≡ shown table.now form.now) }
{
    let _height = form.depth();
    let mut out = Vec::new(alloc);
    write_form(&mut out, table, 0, form)?;
    Ok(out)
}

// Whether it is an operator between two operands.
fn is_infix(form: &Form) -> bool
    ensures { result ≡ is_infix form.now }
{
    match form.view() {
        View::Bin(op, _, _) => matches!(BinaryForm::of(op), BinaryForm::Infix(_)),
        _ => false,
    }
}

// Whether it is a variable, free or bound: before brackets it needs no parentheses.
fn is_bare(form: &Form) -> bool
    ensures { result ≡ is_bare form.now }
{
    matches!(form.view(), View::Var(_) | View::Bound(_))
}

// Writes a formula under so many bound variables after what is written.
#[tactic(auto, using(crate::proofs::FormTexts::leaves))]
#[cycle(form)]
fn write_form(out: &mut Vec<u8>, table: &VarTable, around: u128, form: &Form) -> Result<(), Memory>
    requires { IsCounted around (formula_height form.now) }
    ensures { OnOk result (out.new.items ≡ out.old.items ++ text_of (items table.now around form.now)) }
{
    match form.view() {
        View::Var(variable) => out.extend_from_slice(name_of_variable(table, variable))?,
        View::Bound(number) => write_bound(out, around.saturating_sub(u128::from(number)))?,
        View::Int(value) => out.extend_from_slice(Buffer::new().format(value).as_bytes())?,
        View::Bool(true) => out.extend_from_slice(b"TRUE")?,
        View::Bool(false) => out.extend_from_slice(b"FALSE")?,
        View::Elem { set, index } => {
            out.extend_from_slice(name_of_element(table, set, index))?;
        }
        View::Empty(ty) => {
            out.extend_from_slice(b"{:")?;
            write_type(out, table, ty)?;
            out.extend_from_slice(b"}")?;
        }
        View::Name(domain) => out.extend_from_slice(name_of_domain(table, domain))?,
        View::True => out.extend_from_slice(b"btrue")?,
        View::False => out.extend_from_slice(b"bfalse")?,
        View::Un(op, operand) => write_unary(out, table, around, op, operand)?,
        View::Bin(op, left, right) => write_binary(out, table, around, op, left, right)?,
        View::All(types, body) => {
            out.extend_from_slice(b"!")?;
            write_binder(out, table, around, types, body)?;
        }
        View::Some(types, body) => {
            out.extend_from_slice(b"#")?;
            write_binder(out, table, around, types, body)?;
        }
        View::Compr(ranges, body) => write_comprehension(out, table, around, ranges, body)?,
        View::Lam(ranges, body, value) => write_lambda(out, table, around, ranges, body, value)?,
    }
    Ok(())
}

// Writes a formula in parentheses.
#[tactic(auto, using(crate::proofs::FormTexts::brackets))]
#[cycle(form)]
fn write_enclosed(
    out: &mut Vec<u8>,
    table: &VarTable,
    around: u128,
    form: &Form,
) -> Result<(), Memory>
    requires { IsCounted around (formula_height form.now) }
    ensures { OnOk result (out.new.items ≡
        out.old.items ++ text_of (enclosed (items table.now around form.now))) }
{
    out.extend_from_slice(b"(")?;
    write_form(out, table, around, form)?;
    out.extend_from_slice(b")")?;
    Ok(())
}

// Writes a part of a formula, in parentheses where it is an operator between two operands.
#[tactic(auto, using(crate::proofs::FormTexts::brackets))]
#[cycle(form)]
fn write_part(out: &mut Vec<u8>, table: &VarTable, around: u128, form: &Form) -> Result<(), Memory>
    requires { IsCounted around (formula_height form.now) }
    ensures { OnOk result (out.new.items ≡
        out.old.items ++ text_of (enclosed_if (is_infix form.now) (items table.now around form.now))) }
{
    if is_infix(form) {
        write_enclosed(out, table, around, form)
    } else {
        write_form(out, table, around, form)
    }
}

// Writes what stands before `~`, `[` or `(`, in parentheses unless it is a variable.
#[tactic(auto, using(crate::proofs::FormTexts::brackets))]
#[cycle(form)]
fn write_head(out: &mut Vec<u8>, table: &VarTable, around: u128, form: &Form) -> Result<(), Memory>
    requires { IsCounted around (formula_height form.now) }
    ensures { OnOk result (out.new.items ≡
        out.old.items ++ text_of (enclosed_if (not (is_bare form.now)) (items table.now around form.now))) }
{
    if is_bare(form) {
        write_form(out, table, around, form)
    } else {
        write_enclosed(out, table, around, form)
    }
}

// Writes an operator with its operand.
#[tactic(auto, using(crate::proofs::FormTexts::operators))]
#[cycle(form)]
fn write_unary(
    out: &mut Vec<u8>,
    table: &VarTable,
    around: u128,
    op: UnOp,
    operand: &Form,
) -> Result<(), Memory>
    requires { IsCounted around (formula_height operand.now) }
    ensures { OnOk result (out.new.items ≡ out.old.items ++
        text_of (unary_items (unary_form op) (is_bare operand.now) (items table.now around operand.now))) }
{
    match UnaryForm::of(op) {
        UnaryForm::Word(op) => {
            out.extend_from_slice(word(op))?;
            write_enclosed(out, table, around, operand)?;
        }
        UnaryForm::Negative => {
            out.extend_from_slice(b"-")?;
            write_enclosed(out, table, around, operand)?;
        }
        UnaryForm::Inverse => {
            write_head(out, table, around, operand)?;
            out.extend_from_slice(b"~")?;
        }
        UnaryForm::Single => {
            out.extend_from_slice(b"{")?;
            write_form(out, table, around, operand)?;
            out.extend_from_slice(b"}")?;
        }
    }
    Ok(())
}

// Writes an operator with its two operands.
#[tactic(auto, using(crate::proofs::FormTexts::operators))]
#[cycle(form)]
fn write_binary(
    out: &mut Vec<u8>,
    table: &VarTable,
    around: u128,
    op: BinOp,
    left: &Form,
    right: &Form,
) -> Result<(), Memory>
    requires left { IsCounted around (formula_height left.now) }
    requires right { IsCounted around (formula_height right.now) }
    ensures { OnOk result (out.new.items ≡ out.old.items ++
        text_of (binary_items (binary_form op) (sides left.now right.now)
        (items table.now around left.now) (items table.now around right.now))) }
{
    match BinaryForm::of(op) {
        BinaryForm::Infix(op) => {
            write_part(out, table, around, left)?;
            write_between(out, sign(op))?;
            write_part(out, table, around, right)?;
        }
        BinaryForm::Image => {
            write_head(out, table, around, left)?;
            out.extend_from_slice(b"[")?;
            write_form(out, table, around, right)?;
            out.extend_from_slice(b"]")?;
        }
        BinaryForm::Application => {
            write_head(out, table, around, left)?;
            write_enclosed(out, table, around, right)?;
        }
        BinaryForm::Composition => {
            out.extend_from_slice(b"(")?;
            write_part(out, table, around, left)?;
            write_between(out, b";")?;
            write_part(out, table, around, right)?;
            out.extend_from_slice(b")")?;
        }
    }
    Ok(())
}

// Writes a sign or word with a blank on each side.
fn write_between(out: &mut Vec<u8>, sign: &[u8]) -> Result<(), Memory>
    ensures { OnOk result (out.new.items ≡ out.old.items ++ (32 ∷ (sign.now ++ (32 ∷ [])))) }
{
    out.extend_from_slice(b" ")?;
    out.extend_from_slice(sign)?;
    out.extend_from_slice(b" ")?;
    Ok(())
}

// Writes the variables that a quantifier binds, and its body.
#[tactic(auto, using(crate::proofs::FormTexts::binders))]
#[cycle(form)]
fn write_binder(
    out: &mut Vec<u8>,
    table: &VarTable,
    around: u128,
    types: &[Ty],
    body: &Form,
) -> Result<(), Memory>
    requires { IsCounted around (formula_height body.now + 1) }
    ensures { OnOk result (out.new.items ≡ out.old.items ++ text_of (binder_items table.now around types.now
        (items table.now (around + length types.now) body.now))) }
{
    let within = around + types.len() as u128;
    out.extend_from_slice(b"(")?;
    write_bounds(out, table, around, types)?;
    out.extend_from_slice(b").")?;
    write_enclosed(out, table, within, body)
}

// Writes a comprehension.
#[tactic(auto, using(crate::proofs::FormTexts::binders))]
#[cycle(form)]
fn write_comprehension(
    out: &mut Vec<u8>,
    table: &VarTable,
    around: u128,
    ranges: &[Form],
    body: &Form,
) -> Result<(), Memory>
    requires ranges { IsCounted around (formulas_height (formulas_of ranges.now) + 1) }
    requires body { IsCounted around (formula_height body.now + 1) }
    ensures { OnOk result (out.new.items ≡ out.old.items ++ text_of (comprehension_items
        (ranges_items table.now around (suc around) (formulas_of ranges.now)) (is_infix body.now)
        (items table.now (around + count (formulas_of ranges.now)) body.now))) }
{
    let within = around + ranges.len() as u128;
    out.extend_from_slice(b"{")?;
    write_ranges(out, table, around, ranges)?;
    out.extend_from_slice(b" | ")?;
    write_part(out, table, within, body)?;
    out.extend_from_slice(b"}")?;
    Ok(())
}

// Writes a lambda.
#[tactic(auto, using(crate::proofs::FormTexts::binders))]
#[cycle(form)]
fn write_lambda(
    out: &mut Vec<u8>,
    table: &VarTable,
    around: u128,
    ranges: &[Form],
    body: &Form,
    value: &Form,
) -> Result<(), Memory>
    requires ranges { IsCounted around (formulas_height (formulas_of ranges.now) + 1) }
    requires body { IsCounted around (formula_height body.now + 1) }
    requires value { IsCounted around (formula_height value.now + 1) }
    ensures { OnOk result (out.new.items ≡ out.old.items ++ text_of (lambda_items
        (ranges_items table.now around (suc around) (formulas_of ranges.now)) (is_infix body.now) (is_infix value.now)
        (items table.now (around + count (formulas_of ranges.now)) body.now)
        (items table.now (around + count (formulas_of ranges.now)) value.now))) }
{
    let within = around + ranges.len() as u128;
    out.extend_from_slice(b"%(")?;
    write_ranges(out, table, around, ranges)?;
    out.extend_from_slice(b").(")?;
    write_part(out, table, within, body)?;
    out.extend_from_slice(b" | ")?;
    write_part(out, table, within, value)?;
    out.extend_from_slice(b")")?;
    Ok(())
}

// Writes the variables that a comprehension or lambda binds, each with its range.
#[tactic(auto, using(crate::proofs::FormTexts::ranges))]
#[cycle(form)]
fn write_ranges(
    out: &mut Vec<u8>,
    table: &VarTable,
    around: u128,
    ranges: &[Form],
) -> Result<(), Memory>
    requires { IsCounted around (formulas_height (formulas_of ranges.now) + 1) }
    ensures { OnOk result (out.new.items ≡ out.old.items ++
        text_of (ranges_items table.now around (suc around) (formulas_of ranges.now))) }
{
    for (index, range) in ranges.iter().enumerate() {
        out.extend_from_slice(comma(index))?;
        write_bound(out, around + 1 + index as u128)?;
        out.extend_from_slice(b":")?;
        write_part(out, table, around, range)?;
    }
    Ok(())
}
