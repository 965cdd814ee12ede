// Developments.

ghost use Rattle.std.specs.Prelude.{◌≡◌};
ghost use Rattle.bk_dev.specs.Development.{int_max, is_complete};
ghost use Rattle.bk_dev.specs.Facts.{IsDevelopment};

use crate::kind::{Home, Kind};
use bk_form::{Form, VarTable};
use bk_gsl::Sub;
use bk_io::Text;
use bk_limits::MAXINT;
use std::marker::Model;

/// MAXINT where no range is said.
pub const DEFAULT_MAX: i64 = MAXINT;

/// A set, as the SETS clause of the machine gives it: an enumerated set with its elements' names, or a deferred set, which has no
/// names, and whose size is 0 until VALUES gives it one.
#[derive(Drop)]
pub struct EnumSet {
    pub name: Text,
    pub elements: Vec<Text>,
    pub size: u32,
}

impl Model for EnumSet {
    ghost use Rattle.bk_form.specs.Table.{SetEntry};
    ghost use Rattle.bk_form.specs.Codes.TableCodes.{coded_set};

    ghost Value = { SetEntry };

    ghost coded = { coded_set };

    ghost view = { λ s. record { name = s.name; elements = s.elements.items; size = s.size } };
}

/// An operation's header, the same at every level: its name, its inputs by their numbers, and how many outputs it has.
#[derive(Drop)]
pub struct OpHead {
    pub name: Text,
    pub inputs: Vec<u32>,
    pub outputs: u32,
}

impl Model for OpHead {
    ghost use Rattle.bk_dev.specs.Development.{Head};
    ghost use Rattle.bk_dev.specs.Codes.DevelopmentCodes.{coded_head};

    ghost Value = { Head };

    ghost coded = { coded_head };

    ghost view = { λ h. record { name = h.name; inputs = h.inputs.items; outputs = h.outputs } };
}

/// An operation at one level.
#[derive(Drop)]
pub struct Body {
    /// Its outermost precondition: `btrue` where there is none.
    pub pre: Form,
    /// What stands under the precondition.
    pub sub: Sub,
    /// Its outputs by their numbers, in the order of the header.
    pub outputs: Vec<u32>,
}

impl Model for Body {
    ghost use Rattle.bk_dev.specs.Development.{Body};
    ghost use Rattle.bk_dev.specs.Codes.DevelopmentCodes.{coded_body};

    ghost Value = { Body };

    ghost coded = { coded_body };

    ghost view = { λ b. record { condition = b.pre; sub = b.sub; outputs = b.outputs.items } };
}

/// A component: the machine, a refinement or the implementation.
#[derive(Drop)]
pub struct Level {
    pub name: Text,
    pub kind: Kind,
    /// Its own variables, in the order of its VARIABLES or CONCRETE_VARIABLES clause.
    pub vars: Vec<u32>,
    /// `btrue` where there is no PROPERTIES clause.
    pub properties: Form,
    /// `btrue` where there is no INVARIANT clause.
    pub invariant: Form,
    /// Each variable that has the name of a variable of the level above, with that one.
    pub links: Vec<(u32, u32)>,
    pub assertions: Vec<Form>,
    pub init: Sub,
    /// One for each operation, in the order of the headers.
    pub bodies: Vec<Body>,
}

impl Model for Level {
    ghost use Rattle.bk_dev.specs.Development.{Level};
    ghost use Rattle.bk_dev.specs.Codes.DevelopmentCodes.{coded_level};

    ghost Value = { Level };

    ghost coded = { coded_level };

    ghost view = { λ l. record {
      name = l.name;
      kind = l.kind;
      vars = l.vars.items;
      properties = l.properties;
      invariant = l.invariant;
      links = l.links.items;
      assertions = l.assertions.items;
      init = l.init;
      bodies = l.bodies.items;
    } };
}

/// A machine, its refinements in their order, and at most one implementation. Its numbers name entries of the table, its
/// formulas and substitutions have types, only the last level may be an implementation, and what a substitution binds
/// stands nowhere outside its binder.
#[derive(Drop)]
pub struct Development {
    /// MAXINT, from 1 to `GREATEST_MAXINT`: the numbers of an implementation are those from `-max` to `max`.
    pub max: i64,
    pub table: VarTable,
    /// Where each variable of the table is at home.
    pub homes: Vec<Home>,
    pub sets: Vec<EnumSet>,
    pub heads: Vec<OpHead>,
    /// The machine first.
    pub levels: Vec<Level>,
    /// The constants' values, in the order of the VALUES clause.
    pub values: Vec<(u32, Form)>,
    /// Of each level, how many of the table's sets, from the first on, are of it and of the levels above, and how many of its variables.
    pub extents: Vec<(usize, usize)>,
}

impl Model for Development {
    ghost use Rattle.bk_dev.specs.Development.{Development};
    ghost use Rattle.bk_dev.specs.Codes.DevelopmentCodes.{coded_development};
    ghost use Rattle.bk_dev.specs.Facts.{IsDevelopment};

    ghost Value = { Development };

    ghost coded = { coded_development };

    ghost view = { λ d. record {
      max = d.max;
      table = d.table;
      homes = d.homes.items;
      sets = d.sets.items;
      heads = d.heads.items;
      levels = d.levels.items;
      values = d.values.items;
      extents = d.extents.items;
    } };

    ghost invariant = { λ d. IsDevelopment (record {
      max = d.max;
      table = d.table;
      homes = d.homes.items;
      sets = d.sets.items;
      heads = d.heads.items;
      levels = d.levels.items;
      values = d.values.items;
      extents = d.extents.items;
    }) };
}

impl Development {
    /// What holds of every development. It does nothing: callers learn this of the mathematical development.
    pub fn facts(&self)
        ensures { IsDevelopment self.now }
    {
        let _ = &self.levels;
    }

    /// MAXINT, the greatest number of an implementation. MININT is its negation.
    pub fn int_max(&self) -> i64
        ensures { result ≡ int_max self.now }
    {
        self.max
    }

    /// Whether the last level is an implementation.
    pub fn is_complete(&self) -> bool
        ensures { result ≡ is_complete self.now }
    {
        match self.levels.last() {
            Some(level) => level.kind == Kind::Implementation,
            None => false,
        }
    }
}
