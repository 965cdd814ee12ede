//! The executable part of an implementation.

ghost use Rattle.std.specs.Prelude.{◌≡◌, IfOk};
ghost use Rattle.bk_dev.specs.B0.{IsB0Development};
ghost use Rattle.bk_dev.specs.Development.{level_at, last};
ghost use Rattle.bk_b0.specs.CodeUnit.{unit_of, IsCodeUnit};

use crate::cells::all_slots;
use crate::copies::{copied_bodies, copied_heads, copied_init, copied_sets, copied_values};
use crate::slot::Slot;
use bk_dev::{Body, Development, EnumSet, Level, OpHead};
use bk_form::{Arrays, Form, VarTable};
use bk_gsl::Sub;
use bk_io::Memory;
use std::alloc::Global;
use std::marker::Model;

/// An implementation as it is executed: the variables with cells in the cells' order, the constants' values, the arrays, the
/// elements' names, and the statements of the initialisation and of each operation. It is that of a development in B0, none of
/// whose executed expressions has more than `MOST_OPERATORS` operators on one way down.
#[derive(Drop)]
pub struct B0Unit {
    table: VarTable,
    slots: Vec<Slot>,
    values: Vec<(u32, Form)>,
    arrays: Arrays,
    sets: Vec<EnumSet>,
    heads: Vec<OpHead>,
    init: Sub,
    bodies: Vec<Body>,
}

impl Model for B0Unit {
    ghost use Rattle.bk_b0.specs.CodeUnit.{CodeUnit, IsCodeUnit};
    ghost use Rattle.std.specs.Coded.{codes};
    ghost use Rattle.bk_form.specs.Codes.FormulaCodes.{coded_formula};
    ghost use Rattle.bk_form.specs.Codes.TableCodes.{coded_set, coded_table};
    ghost use Rattle.bk_gsl.specs.Codes.SubCodes.{coded_substitution};
    ghost use Rattle.bk_dev.specs.Codes.DevelopmentCodes.{coded_body, coded_head};

    ghost Value = { CodeUnit };

    ghost coded = { Prim.hlevel (codes, coded_table, coded_set, coded_head, coded_body, coded_formula, coded_substitution) };

    ghost view = { λ u. record {
      table = u.table;
      slots = u.slots.items;
      values = u.values.items;
      arrays = u.arrays;
      sets = u.sets.items;
      heads = u.heads.items;
      init = u.init;
      bodies = u.bodies.items;
    } };

    ghost invariant = { λ u. IsCodeUnit (record {
      table = u.table;
      slots = u.slots.items;
      values = u.values.items;
      arrays = u.arrays;
      sets = u.sets.items;
      heads = u.heads.items;
      init = u.init;
      bodies = u.bodies.items;
    }) };
}

impl B0Unit {
    /// What holds of every unit. It does nothing: callers learn this of the mathematical unit.
    pub fn facts(&self)
        ensures { IsCodeUnit self.now }
    {
        let _ = &self.slots;
    }

    /// The types of the variables.
    pub fn table(&self) -> &VarTable
        ensures { result.now ≡ self.now.table }
    {
        &self.table
    }

    /// The variables with cells, in the cells' order: the implementation's, the initialisation's locals, and of each operation
    /// its inputs, its outputs and its locals.
    pub fn slots(&self) -> &[Slot]
        ensures { result.now ≡ self.now.slots }
    {
        &self.slots
    }

    /// The constants with their values.
    pub fn values(&self) -> &[(u32, Form)]
        ensures { result.now ≡ self.now.values }
    {
        &self.values
    }

    /// The arrays among the implementation's variables, and the largest number.
    pub fn arrays(&self) -> &Arrays
        ensures { result.now ≡ self.now.arrays }
    {
        &self.arrays
    }

    /// The enumerated sets with their elements' names.
    pub fn sets(&self) -> &[EnumSet]
        ensures { result.now ≡ self.now.sets }
    {
        &self.sets
    }

    /// The operations' names, inputs and numbers of outputs.
    pub fn heads(&self) -> &[OpHead]
        ensures { result.now ≡ self.now.heads }
    {
        &self.heads
    }

    /// The statement of the initialisation.
    pub fn init(&self) -> &Sub
        ensures { result.now ≡ self.now.init }
    {
        &self.init
    }

    /// The operations' statements with their outputs, in the order of the headers.
    pub fn bodies(&self) -> &[Body]
        ensures { result.now ≡ self.now.bodies }
    {
        &self.bodies
    }
}

/// The executable part of a development whose last level is an implementation in B0.
pub fn b0(alloc: Global, dev: &Development) -> Result<B0Unit, Memory>
    requires { IsB0Development dev.now }
    ensures { IfOk result (λ unit. unit ≡ unit_of dev.now) }
{
    dev.facts();
    let heads = headers(dev);
    let level = last_level(dev);
    let table = table_of(dev);
    let values = values_of(dev);
    let sets = sets_of(dev);
    let arrays = dev.arrays(alloc)?;
    let slots = all_slots(alloc, table, &arrays, heads, level)?;
    let table = table.copy(alloc)?;
    let values = copied_values(alloc, values)?;
    let sets = copied_sets(alloc, sets)?;
    let heads = copied_heads(alloc, heads)?;
    let init = copied_init(alloc, level)?;
    let bodies = copied_bodies(alloc, level)?;
    Ok(B0Unit {
        table,
        slots,
        values,
        arrays,
        sets,
        heads,
        init,
        bodies,
    })
}

// The implementation.
fn last_level(dev: &Development) -> &Level
    ensures { result.now ≡ level_at dev.now (last dev.now) }
{
    let levels = &dev.levels;
    &levels[levels.len() - 1]
}

// The operations' headers.
fn headers(dev: &Development) -> &[OpHead]
    ensures { result.now ≡ dev.now.heads }
{
    &dev.heads
}

// The table of variables and sets.
fn table_of(dev: &Development) -> &VarTable
    ensures { result.now ≡ dev.now.table }
{
    &dev.table
}

// The constants with their values.
fn values_of(dev: &Development) -> &[(u32, Form)]
    ensures { result.now ≡ dev.now.values }
{
    &dev.values
}

// The enumerated sets.
fn sets_of(dev: &Development) -> &[EnumSet]
    ensures { result.now ≡ dev.now.sets }
{
    &dev.sets
}
