//! Developments without `||`.

ghost use Rattle.std.specs.Prelude.{◌≡◌, ◌<◌, [], length, IfOk, OnOk};
ghost use Rattle.std.specs.Option.{option_copied};
ghost use Rattle.bk_gsl.specs.Flat.{flat_table, flat};
ghost use Rattle.bk_par.specs.Overlaps.{overlaps};
ghost use Rattle.bk_form.specs.Each.{Each};
ghost use Rattle.bk_dev.specs.Claims.{arrays_at};
ghost use Rattle.bk_dev.specs.Development.{level_at, body_of, body_at, int_max, last};
ghost use Rattle.bk_dev.specs.Flattened.{copied_in_bodies, copied_in_level, copied_in_levels, flat_bodies, flat_level, flat_levels, flattened};
ghost use Rattle.bk_po.specs.Obligations.{head_name};
ghost use Rattle.bk_po.specs.FlatFacts.{IsFlattened, IsApart, with_entries, AreBelow};

use bk_dev::{Body, Development, Kind, Level};
use bk_form::{Arrays, Form, VarTable};
use bk_gsl::Sub;
use bk_io::Memory;
use bk_par::{ParFault, flatten};
use std::alloc::Global;
use std::marker::Model;

/// A development whose substitutions are without `||`: each `||` is rewritten by copies, over one table with all copies.
#[derive(Drop)]
pub(crate) struct FlatDevelopment<'a> {
    /// As it is written: its headers, and the constants' values.
    pub written: &'a Development,
    pub table: VarTable,
    pub levels: Vec<Level>,
    /// Those of the implementation, where there is one.
    pub arrays: Option<Arrays>,
}

impl<'a> Model for FlatDevelopment<'a> {
    ghost use Rattle.bk_dev.specs.Development.{Development};
    ghost use Rattle.bk_dev.specs.Codes.DevelopmentCodes.{coded_development};

    ghost Value = { Development };

    ghost coded = { coded_development };

    ghost use Rattle.bk_po.specs.Codes.FlatView.{flat_view, IsFlatView};

    ghost view = { flat_view };

    ghost invariant = { IsFlatView };
}

impl<'a> FlatDevelopment<'a> {
    /// What holds of every one. It does nothing: callers learn this of the mathematical development.
    pub fn facts(&self)
        ensures { IsFlattened self.now }
    {
        let _ = &self.levels;
    }

    /// How many operations there are.
    pub fn operations(&self) -> usize
        ensures { result ≡ length self.now.heads }
    {
        let written = self.written;
        written.heads.len()
    }

    /// The name of an operation.
    pub fn operation_name(&self, operation: usize) -> &[u8]
        requires { operation < length self.now.heads }
        ensures { result.now ≡ head_name self.now operation }
    {
        let written = self.written;
        let head = &written.heads[operation];
        head.name.as_bytes()
    }

    /// A level, 0 being the machine's.
    pub fn level(&self, level: usize) -> &Level
        requires { level < length self.now.levels }
        ensures { result.now ≡ level_at self.now level }
    {
        &self.levels[level]
    }

    /// An operation at a level.
    #[tactic(auto, using(crate::proofs::FlatParts::body_stands))]
    pub fn body(&self, level: usize, operation: usize) -> &Body
        requires level { level < length self.now.levels }
        requires operation { operation < length self.now.heads }
        ensures { result.now ≡ body_at self.now level operation }
    {
        self.facts();
        body_of(self.level(level), operation)
    }

    /// The arrays of a level: an implementation alone has some.
    #[tactic(auto, using(crate::proofs::FlatArrays::arrays))]
    pub fn arrays_at(&self, level: usize) -> Option<&Arrays>
        requires { level < length self.now.levels }
        ensures { option_copied result ≡ arrays_at self.now level }
    {
        if self.levels[level].kind != Kind::Implementation {
            return None;
        }
        self.arrays.as_ref()
    }

    /// MAXINT, the greatest number of an implementation.
    pub fn int_max(&self) -> i64
        ensures { result ≡ int_max self.now }
    {
        let written = self.written;
        written.int_max()
    }
}

fn body_of(level: &Level, operation: usize) -> &Body
    requires { operation < length level.now.bodies }
    ensures { result.now ≡ body_of level.now operation }
{
    &level.bodies[operation]
}

/// The development without `||`.
#[tactic(auto, using(crate::proofs::FlatStands::stands))]
pub(crate) fn flattened(alloc: Global, dev: &Development) -> Result<FlatDevelopment<'_>, Memory>
    ensures { IfOk result (λ flat. flat ≡ flattened dev.now) }
{
    dev.facts();
    let mut table = dev.table.copy(alloc)?;
    let levels = flat_levels(alloc, &dev.levels, &mut table)?;
    let arrays = last_arrays(alloc, dev)?;
    Ok(FlatDevelopment {
        written: dev,
        table,
        levels,
        arrays,
    })
}

// The arrays of the last level, where it is an implementation.
fn last_arrays(alloc: Global, dev: &Development) -> Result<Option<Arrays>, Memory>
    ensures { IfOk result (λ arrays. arrays ≡ arrays_at dev.now (last dev.now)) }
{
    if !dev.is_complete() {
        return Ok(None);
    }
    Ok(Some(dev.arrays(alloc)?))
}

// The levels without `||`; the table gets an entry for each copy.
#[tactic(auto, using(crate::proofs::FlatEntries::levels_in_turn))]
fn flat_levels(alloc: Global, levels: &[Level], table: &mut VarTable) -> Result<Vec<Level>, Memory>
    requires apart { Each IsApart levels.now }
    requires listed { AreBelow (length table.old.variables) (copied_in_levels levels.now) }
    ensures levels { IfOk result (λ list. list.items ≡ flat_levels (length table.old.variables) levels.now) }
    ensures table { OnOk result (table.new ≡ with_entries table.old (copied_in_levels levels.now)) }
{
    let mut list = Vec::new(alloc);
    for level in levels {
        list.push(flat_level(alloc, level, table)?)?;
    }
    Ok(list)
}

// The level without `||`, its copies numbered from the end of the table on.
#[tactic(auto, using(crate::proofs::FlatEntries::one_level))]
fn flat_level(alloc: Global, level: &Level, table: &mut VarTable) -> Result<Level, Memory>
    requires apart { IsApart level.now }
    requires listed { AreBelow (length table.old.variables) (copied_in_level level.now) }
    ensures level { IfOk result (λ l. l ≡ flat_level (length table.old.variables) level.now) }
    ensures table { OnOk result (table.new ≡ with_entries table.old (copied_in_level level.now)) }
{
    let init = flat_sub(alloc, &level.init, table)?;
    let bodies = flat_bodies(alloc, &level.bodies, table)?;
    with_subs(alloc, level, init, bodies)
}

// The level with another initialisation and other bodies.
fn with_subs(alloc: Global, level: &Level, init: Sub, bodies: Vec<Body>) -> Result<Level, Memory>
    ensures { IfOk result (λ l. l ≡ record level.now { init = init; bodies = bodies.items }) }
{
    Ok(Level {
        name: level.name.copy(alloc)?,
        kind: level.kind,
        vars: Vec::from_slice(alloc, &level.vars)?,
        properties: level.properties.copy(alloc)?,
        invariant: level.invariant.copy(alloc)?,
        links: Vec::from_slice(alloc, &level.links)?,
        assertions: Form::copy_all(&level.assertions, alloc)?,
        init,
        bodies,
    })
}

// The bodies without `||`, one after another.
#[tactic(auto, using(crate::proofs::FlatEntries::bodies_in_turn))]
fn flat_bodies(alloc: Global, bodies: &[Body], table: &mut VarTable) -> Result<Vec<Body>, Memory>
    requires apart { Each (λ b. overlaps b.sub ≡ []) bodies.now }
    requires listed { AreBelow (length table.old.variables) (copied_in_bodies bodies.now) }
    ensures bodies { IfOk result (λ list. list.items ≡ flat_bodies (length table.old.variables) bodies.now) }
    ensures table { OnOk result (table.new ≡ with_entries table.old (copied_in_bodies bodies.now)) }
{
    let mut list = Vec::new(alloc);
    for body in bodies {
        list.push(flat_body(alloc, body, table)?)?;
    }
    Ok(list)
}

// The body without `||`.
fn flat_body(alloc: Global, body: &Body, table: &mut VarTable) -> Result<Body, Memory>
    requires { overlaps body.now.sub ≡ [] }
    ensures body { IfOk result (λ b. b ≡ record body.now { sub = flat table.old body.now.sub }) }
    ensures table { OnOk result (table.new ≡ flat_table table.old body.now.sub) }
{
    Ok(Body {
        pre: body.pre.copy(alloc)?,
        sub: flat_sub(alloc, &body.sub, table)?,
        outputs: Vec::from_slice(alloc, &body.outputs)?,
    })
}

// The substitution without `||`; no two sides of one write one variable.
#[tactic(auto, using(crate::proofs::Overlapping::no_least))]
fn flat_sub(alloc: Global, sub: &Sub, table: &mut VarTable) -> Result<Sub, Memory>
    requires { overlaps sub.now ≡ [] }
    ensures sub { IfOk result (λ s. s ≡ flat table.old sub.now) }
    ensures table { OnOk result (table.new ≡ flat_table table.old sub.now) }
{
    match flatten(alloc, sub.copy(alloc)?, table) {
        Ok(rewritten) => Ok(rewritten),
        Err(ParFault::Memory) => Err(Memory),
        Err(ParFault::Overlap(_)) => unreachable!(),
    }
}
