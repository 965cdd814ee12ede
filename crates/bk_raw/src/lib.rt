//! Raw trees of the B notation: what is written, with the places where it is written, before names have a meaning.
#![tactic(auto)]

pub mod component;
mod depth;
mod fault;
pub mod kind;
pub mod laws;
pub mod operator;
pub mod readings;
pub mod scope;
pub mod script;
pub mod substitution;
pub mod term;
pub mod written;

pub use component::{
    ClauseParts, ClauseWord, ComponentKind, RawClause, RawComponent, RawOperation, RawSet, RawValue,
};
pub use depth::too_deep;
pub use fault::FaultKind;
pub use kind::{Strengths, is_of_sequences};
pub use operator::{Constant, InfixOp, WordOp};
pub use scope::Scope;
pub use script::{
    NamePart, RawLine, RawMultiple, RawPlace, RawRule, RawScript, RawTyped, RulePart, RuleWord,
};
pub use substitution::{RawBranch, RawSub, RawSubNode};
pub use term::{RawBound, RawName, RawNode, RawRange, RawTerm};
pub use written::{RawType, RawTypeNode};
