// Components as they are written.

use crate::substitution::RawSub;
use crate::term::{RawName, RawTerm};
use std::marker::Model;

/// What a component is.
#[derive(Drop)]
pub enum ComponentKind {
    /// `MACHINE`.
    Machine,
    /// `REFINEMENT`.
    Refinement,
    /// `IMPLEMENTATION`.
    Implementation,
}

/// The word that begins a clause.
#[derive(Drop)]
pub enum ClauseWord {
    /// `SETS`.
    Sets,
    /// `CONSTANTS`.
    Constants,
    /// `CONCRETE_CONSTANTS`: the same clause as `CONSTANTS`.
    ConcreteConstants,
    /// `PROPERTIES`.
    Properties,
    /// `VARIABLES`.
    Variables,
    /// `ABSTRACT_VARIABLES`: the same clause as `VARIABLES`.
    AbstractVariables,
    /// `CONCRETE_VARIABLES`.
    ConcreteVariables,
    /// `INVARIANT`.
    Invariant,
    /// `ASSERTIONS`.
    Assertions,
    /// `VALUES`.
    Values,
    /// `INITIALISATION`.
    Initialisation,
    /// `OPERATIONS`.
    Operations,
    /// `IMPORTS`.
    Imports,
}

/// An entry of SETS: a name, and its elements where they are written.
#[derive(Drop)]
pub struct RawSet {
    pub name: RawName,
    /// Empty where the set is a name alone.
    pub elements: Vec<RawName>,
}

/// An entry of VALUES: `name = value`.
#[derive(Drop)]
pub struct RawValue {
    pub name: RawName,
    pub value: RawTerm,
}

/// `outputs <-- name(inputs) = body`.
#[derive(Drop)]
pub struct RawOperation {
    pub outputs: Vec<RawName>,
    pub name: RawName,
    pub inputs: Vec<RawName>,
    pub body: RawSub,
}

/// What stands after the word of a clause.
#[derive(Drop)]
pub enum ClauseParts {
    /// Of SETS.
    Sets(Vec<RawSet>),
    /// Of CONSTANTS, the clauses of variables and IMPORTS.
    Names(Vec<RawName>),
    /// Of PROPERTIES and INVARIANT.
    Term(RawTerm),
    /// Of ASSERTIONS.
    Terms(Vec<RawTerm>),
    /// Of VALUES.
    Values(Vec<RawValue>),
    /// Of INITIALISATION.
    Substitution(RawSub),
    /// Of OPERATIONS.
    Operations(Vec<RawOperation>),
}

/// A clause: its word, the byte of the text where it starts, and its parts in order.
#[derive(Drop)]
pub struct RawClause {
    pub word: ClauseWord,
    pub at: usize,
    pub parts: ClauseParts,
}

/// A component as it is written. Clauses see the mathematical component.
#[derive(Drop)]
pub struct RawComponent {
    /// The byte of the text where its first token starts.
    pub at: usize,
    pub kind: ComponentKind,
    pub name: RawName,
    /// What it refines; a machine nothing.
    pub refines: Option<RawName>,
    /// In the order of the text.
    pub clauses: Vec<RawClause>,
}

impl Model for RawSet {
    ghost use Rattle.bk_raw.specs.Trees.ComponentTree.{RawSet};
    ghost use Rattle.bk_raw.specs.Codes.ComponentCodes.{coded_set};

    ghost Value = { RawSet };

    ghost coded = { coded_set };

    ghost view = { λ s. record { name = s.name; elements = s.elements.items } };
}

impl Model for RawOperation {
    ghost use Rattle.bk_raw.specs.Trees.ComponentTree.{RawOperation};
    ghost use Rattle.bk_raw.specs.Codes.ComponentCodes.{coded_operation};

    ghost Value = { RawOperation };

    ghost coded = { coded_operation };

    ghost view = { λ o. record { outputs = o.outputs.items; name = o.name; inputs = o.inputs.items; body = o.body } };
}

impl Model for RawClause {
    ghost use Rattle.bk_raw.specs.Trees.ComponentTree.{RawClause};
    ghost use Rattle.bk_raw.specs.Codes.ComponentCodes.{coded_clause};
    ghost use Rattle.bk_raw.specs.Codes.ComponentView.{parts_of};

    ghost Value = { RawClause };

    ghost coded = { coded_clause };

    ghost view = { λ c. record { word = c.word; at = c.at; parts = parts_of c.parts } };
}

impl Model for RawComponent {
    ghost use Rattle.bk_raw.specs.Trees.ComponentTree.{RawComponent};
    ghost use Rattle.bk_raw.specs.Codes.ComponentCodes.{coded_component};

    ghost Value = { RawComponent };

    ghost coded = { coded_component };

    ghost view = { λ c. record {
      at = c.at;
      kind = c.kind;
      name = c.name;
      refines = c.refines;
      clauses = c.clauses.items;
    } };
}
