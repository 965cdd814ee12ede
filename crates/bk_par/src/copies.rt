// Copies of the variables that the left side of a `||` writes.

ghost use Rattle.std.specs.Prelude.{◌≡◌, ◌≤◌, length, map, IfOk, OnOk, OnErr};
ghost use Rattle.bk_form.specs.Predicates.{equation};
ghost use Rattle.bk_form.specs.Wider.{IsWider};
ghost use Rattle.bk_gsl.specs.Substitution.{guard, any, seq};
ghost use Rattle.bk_gsl.specs.State.{firsts};
ghost use Rattle.bk_gsl.specs.Flat.{reading, copies_from, copy_of, equations_onto, by_copies};
ghost use Rattle.bk_par.specs.Copies.{with_copies, with_copy};

use crate::renaming::reading;
use bk_form::{BinOp, Form, Part, VarTable};
use bk_gsl::Sub;
use bk_io::Memory;
use std::alloc::Global;

// A formula joins no more equations than this: it has fewer than 2^32 nodes.
const MOST_EQUATIONS: usize = 1_000_000_000;

// Each copy with its variable, the copies numbered from this number on. `Memory` comes too where 32 bits do not number them.
pub(crate) fn numbered(
    alloc: Global,
    next: usize,
    variables: &[u32],
) -> Result<Vec<(u32, u32)>, Memory>
    ensures { IfOk result (λ ps. ps.items ≡ copies_from next variables.now) }
{
    let mut pairs = Vec::new(alloc);
    let mut copy = next;
    for variable in variables {
        if copy > u32::MAX as usize {
            return Err(Memory);
        }
        pairs.push((copy as u32, *variable))?;
        copy += 1;
    }
    Ok(pairs)
}

// The two sides one after the other, the second reading the copies; where the first writes nothing there are none.
pub(crate) fn by_copies(
    alloc: Global,
    pairs: &[(u32, u32)],
    left: Sub,
    right: Sub,
) -> Result<Sub, Memory>
    ensures { IfOk result (λ s. s ≡ by_copies pairs.now left right) }
{
    match pairs {
        [] => Sub::seq(alloc, left, right),
        [first, others @ ..] => {
            let body = in_turn(alloc, pairs, left, right)?;
            over_copies(alloc, pairs, supposing(alloc, *first, others, body)?)
        }
    }
}

// The two sides one after the other, the second reading the copies.
fn in_turn(alloc: Global, pairs: &[(u32, u32)], left: Sub, right: Sub) -> Result<Sub, Memory>
    ensures { IfOk result (λ s. s ≡ seq left (reading (copy_of pairs.now) right)) }
{
    let right = reading_copies(alloc, &right, pairs)?;
    Sub::seq(alloc, left, right)
}

// The substitution with the copies in place of their variables where it reads them.
#[tactic(auto, using(crate::proofs::CopyNames::reading_copies))]
fn reading_copies(alloc: Global, sub: &Sub, pairs: &[(u32, u32)]) -> Result<Sub, Memory>
    ensures { IfOk result (λ s. s ≡ reading (copy_of pairs.now) sub.now) }
{
    reading(alloc, sub, &swapped(alloc, pairs)?)
}

// The substitution where each copy equals its variable.
fn supposing(
    alloc: Global,
    first: (u32, u32),
    others: &[(u32, u32)],
    body: Sub,
) -> Result<Sub, Memory>
    ensures { IfOk result (λ s. s ≡ guard (equations_onto (equation first) others.now) body) }
{
    Sub::guard(alloc, equations(alloc, first, others)?, body)
}

// The substitution with the copies as its locals.
fn over_copies(alloc: Global, pairs: &[(u32, u32)], body: Sub) -> Result<Sub, Memory>
    ensures { IfOk result (λ s. s ≡ any (firsts pairs.now) body) }
{
    Sub::any(alloc, firsts(alloc, pairs)?, body)
}

// The equations of the copies and their variables, joined to the left. `Memory` comes too where a formula cannot have so many
// nodes.
#[tactic(auto, using(crate::proofs::CopyNames::equation_size))]
fn equations(alloc: Global, first: (u32, u32), others: &[(u32, u32)]) -> Result<Form, Memory>
    ensures { IfOk result (λ f. f ≡ equations_onto (equation first) others.now) }
{
    if others.len() > MOST_EQUATIONS {
        return Err(Memory);
    }
    let mut joined = equation(alloc, first)?;
    for pair in others {
        let next = equation(alloc, *pair)?;
        joined = Form::make(alloc, Part::Bin(BinOp::And, joined, next))?;
    }
    Ok(joined)
}

// The equation of a copy and its variable.
fn equation(alloc: Global, pair: (u32, u32)) -> Result<Form, Memory>
    ensures { IfOk result (λ f. f ≡ equation pair) }
{
    let copy = Form::make(alloc, Part::Var(pair.0))?;
    let variable = Form::make(alloc, Part::Var(pair.1))?;
    Form::make(alloc, Part::Bin(BinOp::Eq, copy, variable))
}

// Each variable with its copy.
fn swapped(alloc: Global, pairs: &[(u32, u32)]) -> Result<Vec<(u32, u32)>, Memory>
    ensures { IfOk result (λ ps. ps.items ≡ map (λ p. (p.1, p.0)) pairs.now) }
{
    let mut others = Vec::new(alloc);
    for (copy, variable) in pairs {
        others.push((*variable, *copy))?;
    }
    Ok(others)
}

// The copies.
fn firsts(alloc: Global, pairs: &[(u32, u32)]) -> Result<Vec<u32>, Memory>
    ensures { IfOk result (λ zs. zs.items ≡ firsts pairs.now) }
{
    let mut copies = Vec::new(alloc);
    for (copy, _) in pairs {
        copies.push(*copy)?;
    }
    Ok(copies)
}

// Adds an entry for each copy: that of the variable which it copies, one of the first so many.
#[tactic(auto, using(crate::proofs::Entries::adding))]
pub(crate) fn add_entries(
    alloc: Global,
    table: &mut VarTable,
    listed: usize,
    variables: &[u32],
) -> Result<(), Memory>
    requires { listed ≤ length table.old.variables }
    ensures ok { OnOk result (table.new ≡ with_copies table.old listed variables.now) }
    ensures kept { IsWider table.old table.new }
    ensures sets { table.new.sets ≡ table.old.sets }
{
    for variable in variables {
        add_entry(alloc, table, listed, *variable)?;
    }
    Ok(())
}

// Adds the entry of one copy. `Memory` comes too where 32 bits do not number it.
#[tactic(auto, using(crate::proofs::Entries::entries))]
fn add_entry(
    alloc: Global,
    table: &mut VarTable,
    listed: usize,
    variable: u32,
) -> Result<(), Memory>
    ensures ok { OnOk result (table.new ≡ with_copy table.old listed variable) }
    ensures err { OnErr result (table.new ≡ table.old) }
{
    if variable as usize >= listed {
        return Ok(());
    }
    let text = match table.text(variable) {
        Some(text) => text.copy(alloc)?,
        None => return Ok(()),
    };
    let ty = match table.ty(variable) {
        Some(ty) => ty.copy(alloc)?,
        None => return Ok(()),
    };
    if table.variables() > u32::MAX as usize {
        return Err(Memory);
    }
    table.add_variable(text, ty)?;
    Ok(())
}
