//! An image: the code of an implementation with its cells, its sets and the entries of its operations.
ghost use Rattle.std.specs.Prelude.{◌≡◌};

use crate::{Inst, Sequence};
use bk_limits::MAXINT;

/// MAXINT where no range is said.
pub const DEFAULT_MAX: i64 = MAXINT;

/// A name as bytes.
pub type NameText = Sequence<u8>;

/// Names in order.
pub type NameTexts = Sequence<NameText>;

/// The names of the elements of each set, in the order of the sets.
pub type ElemNames = Sequence<NameTexts>;

/// The inputs or the outputs of an operation, in the order of its header.
pub type Parameters = Sequence<Parameter>;

/// The operations, in the machine's order.
pub type OpEntries = Sequence<OpEntry>;

/// The instructions; a place is an instruction's number from 0.
pub type Code = Sequence<Inst>;

/// What the number in a cell stands for: a whole number, a truth value or an element of the set with that number.
#[derive(Clone, Copy, PartialEq, Eq, Debug)]
pub enum CellKind {
    Integer,
    Bool,
    Set(u32),
}

/// An input or an output of an operation, and the cell that holds it.
#[derive(Clone, Copy, PartialEq, Eq, Debug)]
pub struct Parameter {
    pub kind: CellKind,
    pub slot: u32,
}

/// An operation and the place where its code starts.
#[derive(Drop)]
pub struct OpEntry {
    pub name: NameText,
    pub start: u32,
    pub inputs: Parameters,
    pub outputs: Parameters,
}

/// A program of the machine. The initialisation's code starts at place 0.
#[derive(Drop)]
pub struct Image {
    /// MAXINT: the numbers are those from `-max` to `max`.
    pub max: i64,
    pub cells: u32,
    pub sets: ElemNames,
    pub ops: OpEntries,
    pub code: Code,
}

impl Image {
    ghost use Rattle.bk_code.specs.Numbers.{int_max};

    /// MAXINT, the greatest whole number of this code; the least is its negation.
    pub fn int_max(&self) -> i64
        ensures { result ≡ int_max self.now }
    {
        self.max
    }
}
