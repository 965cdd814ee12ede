//! The clauses of obligations, and the parts of their goals.

use crate::component::{Begun, Component, Term};
use crate::leaf::{
    Leaf, What, box_leaves, condition_leaves, conjunct_leaves, diamond_leaves, joined,
};
use bk_dev::{Body, Development, Kind, Level};
use bk_form::{Form, View};
use bk_io::Memory;
use std::alloc::Global;

/// A clause of a component of which obligations are made.
#[derive(Clone, Copy, PartialEq, Eq)]
pub(crate) enum Clause {
    PropertiesDefined,
    Values,
    InvariantDefined,
    AssertionsDefined,
    Assertions,
    Initialisation,
    InitialisationDefined,
    Operation(usize),
    OperationDefined(usize),
}

/// Where clauses stand: a development, its components as they are written, and the level of the clause.
#[derive(Clone, Copy)]
pub(crate) struct Site<'a> {
    pub(crate) alloc: Global,
    pub(crate) dev: &'a Development,
    pub(crate) components: &'a [Component<'a>],
    pub(crate) number: usize,
    pub(crate) level: &'a Level,
}

impl<'a> Site<'a> {
    pub(crate) fn component(&self) -> Option<Component<'a>> {
        self.components.get(self.number).copied()
    }

    // The level above.
    fn above(&self) -> Option<&'a Level> {
        let dev = self.dev;
        let number = self.number.checked_sub(1)?;
        dev.levels.get(number)
    }

    /// The operation with this number.
    pub(crate) fn operation_name(&self, operation: usize) -> &'a [u8] {
        let dev = self.dev;
        match dev.heads.get(operation) {
            Some(head) => head.name.as_bytes(),
            None => b"",
        }
    }

    /// The byte at which the clause begins.
    pub(crate) fn clause_at(&self, clause: Clause) -> usize {
        let Some(component) = self.component() else {
            return 0;
        };
        match clause {
            Clause::PropertiesDefined => component.clause_at(Begun::Properties),
            Clause::Values => component.clause_at(Begun::Values),
            Clause::InvariantDefined => component.clause_at(Begun::Invariant),
            Clause::AssertionsDefined | Clause::Assertions => {
                component.clause_at(Begun::Assertions)
            }
            Clause::Initialisation | Clause::InitialisationDefined => {
                component.clause_at(Begun::Initialisation)
            }
            Clause::Operation(operation) | Clause::OperationDefined(operation) => {
                component.operation_at(self.operation_name(operation))
            }
        }
    }

    /// What stands in the names of its obligations after the component.
    pub(crate) fn clause_name(&self, clause: Clause) -> Result<Vec<u8>, Memory> {
        let mut name = Vec::new(self.alloc);
        match clause {
            Clause::PropertiesDefined => name.extend_from_slice(b"PROPERTIES.wd")?,
            Clause::Values => name.extend_from_slice(b"VALUES")?,
            Clause::InvariantDefined => name.extend_from_slice(b"INVARIANT.wd")?,
            Clause::AssertionsDefined => name.extend_from_slice(b"ASSERTIONS.wd")?,
            Clause::Assertions => name.extend_from_slice(b"ASSERTIONS")?,
            Clause::Initialisation => name.extend_from_slice(b"INITIALISATION")?,
            Clause::InitialisationDefined => {
                name.extend_from_slice(b"INITIALISATION")?;
                name.extend_from_slice(self.suffix())?;
            }
            Clause::Operation(operation) => {
                name.extend_from_slice(self.operation_name(operation))?;
            }
            Clause::OperationDefined(operation) => {
                name.extend_from_slice(self.operation_name(operation))?;
                name.extend_from_slice(self.suffix())?;
            }
        }
        Ok(name)
    }

    fn suffix(&self) -> &'static [u8] {
        let level = self.level;
        match level.kind {
            Kind::Implementation => b".chk",
            Kind::Machine | Kind::Refinement => b".wd",
        }
    }

    /// The parts of the goal of a clause; None of one that asks that something is defined, or of VALUES.
    pub(crate) fn leaves(&self, clause: Clause) -> Result<Option<Vec<Leaf>>, Memory> {
        match clause {
            Clause::Assertions => Ok(Some(self.assertion_leaves()?)),
            Clause::Initialisation => Ok(Some(self.start_leaves()?)),
            Clause::Operation(operation) => self.operation_leaves(operation),
            _ => Ok(None),
        }
    }

    // A part for each sequent of the assertions.
    fn assertion_leaves(&self) -> Result<Vec<Leaf>, Memory> {
        let level = self.level;
        let mut leaves = Vec::new(self.alloc);
        for (index, assertion) in level.assertions.iter().enumerate() {
            let what = What::Conjunct(index.saturating_add(1));
            let mut own = condition_leaves(self.alloc, assertion, what)?;
            let at = self.assertion_at(index);
            for leaf in own.iter_mut() {
                leaf.at = at;
            }
            leaves.append(&mut own)?;
        }
        Ok(leaves)
    }

    fn assertion_at(&self, index: usize) -> Option<usize> {
        let Some(component) = self.component() else {
            return None;
        };
        let term = component.assertions().get(index)?;
        Some(term.at)
    }

    // The invariant's.
    fn invariant_leaves(&self) -> Result<Vec<Leaf>, Memory> {
        let raw = match self.component() {
            Some(component) => component.term(Term::Invariant),
            None => None,
        };
        let level = self.level;
        conjunct_leaves(self.alloc, &level.invariant, raw)
    }

    // Those of the invariant, the links and so many outputs.
    fn joined_leaves(&self, outputs: usize) -> Result<Vec<Leaf>, Memory> {
        let level = self.level;
        let mut leaves = self.invariant_leaves()?;
        for (variable, above) in &level.links {
            leaves.push(Leaf {
                what: What::Linked(*variable, *above),
                at: None,
            })?;
        }
        for index in 0..outputs {
            leaves.push(Leaf {
                what: What::Output(index.saturating_add(1)),
                at: None,
            })?;
        }
        Ok(leaves)
    }

    fn start_leaves(&self) -> Result<Vec<Leaf>, Memory> {
        let level = self.level;
        let Some(above) = self.above() else {
            return box_leaves(self.alloc, &level.init, &self.invariant_leaves()?);
        };
        let behind = self.joined_leaves(0)?;
        let between = diamond_leaves(self.alloc, &above.init, &behind)?;
        box_leaves(self.alloc, &level.init, &between)
    }

    fn operation_leaves(&self, operation: usize) -> Result<Option<Vec<Leaf>>, Memory> {
        let level = self.level;
        let Some(body) = level.bodies.get(operation) else {
            return Ok(None);
        };
        let Some(above) = self.above() else {
            let behind = self.invariant_leaves()?;
            return Ok(Some(box_leaves(self.alloc, &body.sub, &behind)?));
        };
        let Some(abstraction) = above.bodies.get(operation) else {
            return Ok(None);
        };
        Ok(Some(self.refined_leaves(body, abstraction)?))
    }

    // Those of a body below another one.
    fn refined_leaves(&self, body: &Body, above: &Body) -> Result<Vec<Leaf>, Memory> {
        let behind = self.joined_leaves(body.outputs.len())?;
        let between = diamond_leaves(self.alloc, &above.sub, &behind)?;
        let own = box_leaves(self.alloc, &body.sub, &between)?;
        if is_true(&body.pre) {
            return Ok(own);
        }
        let first = condition_leaves(self.alloc, &body.pre, What::Condition)?;
        joined(first, own)
    }
}

fn is_true(form: &Form) -> bool {
    matches!(form.view(), View::True)
}
