// Scripts.

ghost use Rattle.std.specs.Prelude.{◌≡◌, ◌++◌, IfOk, map};
ghost use Rattle.std.specs.List.{AllZip};
ghost use Rattle.bk_dev.specs.Development.{int_max};
ghost use Rattle.bk_dev.specs.Flattened.{flattened};
ghost use Rattle.bk_scripts.specs.Grounding.{AreReadIn, AreRulesOf, IsGrounded, StandsFor};
ghost use Rattle.bk_scripts.specs.Brought.{own_variables, own_parameters, hidden};
ghost use Rattle.bk_scripts.specs.Sight as meant;
ghost use Rattle.bk_scripts.specs.Sight.{outer_scope, parameter_scope};

use crate::around::Around;
use crate::brought::{add_entries, add_hidden, brought, new_over, widen};
use crate::sight::{level_of, operation_of, outer_entries, parameter_entries};
use bk_dev::Development;
use bk_form::VarTable;
use bk_io::{Memory, Text};
use bk_kernel::Rule;
use bk_raw::{NamePart, RawRule, RawScript, RawTyped, Scope};
use std::alloc::Global;

/// The rules that a script stands for at the obligation of its name, and the table that they speak of: the development's, in which
/// each substitution is flat, with a variable more for each name that the script brings. A rule that means nothing there becomes
/// [`Rule::Unread`].
pub fn ground(
    alloc: Global,
    script: &RawScript,
    dev: &Development,
    table: &VarTable,
) -> Result<(Vec<Rule>, VarTable), Memory>
    requires { table.now ≡ (flattened dev.now).table }
    ensures { IfOk result (λ p. IsGrounded (flattened dev.now) script.now p.0.items p.1) }
{
    rules_over(alloc, script, dev, table)
}

// The same over any table.
fn rules_over(
    alloc: Global,
    script: &RawScript,
    dev: &Development,
    table: &VarTable,
) -> Result<(Vec<Rule>, VarTable), Memory>
    ensures { IfOk result (λ p. AreRulesOf table.now dev.now script.now p.0.items p.1) }
{
    let (scope, wide) = read_in(alloc, script, dev, table)?;
    let rules = rules_in(alloc, &scope, &wide, &script.rules)?;
    Ok((rules, wide))
}

/// What the terms of a script are read in at the obligation of its name: the names in scope, and the table that they speak of, which
/// is this one with a variable more for each name that the script brings.
pub fn read_in(
    alloc: Global,
    script: &RawScript,
    dev: &Development,
    table: &VarTable,
) -> Result<(Scope, VarTable), Memory>
    ensures { IfOk result (λ p. AreReadIn table.now dev.now script.now p.0 p.1) }
{
    let (outer, own) = sights(alloc, script, dev, table)?;
    let names = brought(alloc, script)?;
    let new = new_over(alloc, &own, &names)?;
    let types = type_scope(alloc, dev, &outer, &own, &new)?;
    let mut scope = own_scope(alloc, dev, &outer, &own)?;
    let mut wide = table.copy(alloc)?;
    widen(alloc, &types, table, &new, &mut wide, &mut scope)?;
    Ok((scope, wide))
}

// The variables in scope, and outputs and inputs of the script's operation.
fn sights(
    alloc: Global,
    script: &RawScript,
    dev: &Development,
    table: &VarTable,
) -> Result<(Vec<(Text, u32)>, Vec<(Text, u32)>), Memory>
    ensures variables { IfOk result (λ p. p.0.items ≡ own_variables table.now dev.now script.now) }
    ensures parameters { IfOk result (λ p. p.1.items ≡ own_parameters table.now dev.now script.now) }
{
    sights_of(alloc, &script.name, dev, table)
}

// The same of its name.
fn sights_of(
    alloc: Global,
    name: &[NamePart],
    dev: &Development,
    table: &VarTable,
) -> Result<(Vec<(Text, u32)>, Vec<(Text, u32)>), Memory>
    ensures variables { IfOk result (λ p. p.0.items ≡ outer_scope table.now dev.now (meant.level_of dev.now name.now)) }
    ensures parameters { IfOk result (λ p. p.1.items ≡ parameter_scope table.now dev.now (meant.level_of dev.now name.now)
        (meant.operation_of dev.now name.now)) }
{
    let level = level_of(alloc, dev, name)?;
    let operation = operation_of(alloc, dev, name)?;
    let outer = outer_entries(alloc, dev, table, level)?;
    let own = parameter_entries(alloc, dev, table, level, operation)?;
    Ok((outer, own))
}

// What the types of new names are read in.
fn type_scope(
    alloc: Global,
    dev: &Development,
    outer: &[(Text, u32)],
    own: &[(Text, u32)],
    new: &[&RawTyped],
) -> Result<Scope, Memory>
    ensures { IfOk result (λ scope. scope ≡
        record { max = int_max dev.now; names = outer.now ++ (own.now ++ hidden (map (λ x. x.now) new.now)) }) }
{
    let mut scope = own_scope(alloc, dev, outer, own)?;
    add_hidden(alloc, &mut scope, new)?;
    Ok(scope)
}

// What a script that brings no names is read in.
fn own_scope(
    alloc: Global,
    dev: &Development,
    outer: &[(Text, u32)],
    own: &[(Text, u32)],
) -> Result<Scope, Memory>
    ensures { IfOk result (λ scope. scope ≡ record { max = int_max dev.now; names = outer.now ++ own.now }) }
{
    let mut scope = Scope::new(alloc, dev.int_max());
    add_entries(alloc, &mut scope, outer)?;
    add_entries(alloc, &mut scope, own)?;
    Ok(scope)
}

fn rules_in(
    alloc: Global,
    scope: &Scope,
    table: &VarTable,
    written: &[RawRule],
) -> Result<Vec<Rule>, Memory>
    ensures { IfOk result (λ rules. AllZip (StandsFor (record { table = table.now; scope = scope.now })) written.now rules.items) }
{
    let around = Around {
        alloc,
        table,
        scope,
    };
    let mut rules = Vec::new(alloc);
    for raw in written {
        rules.push(around.rule(raw)?)?;
    }
    Ok(rules)
}
