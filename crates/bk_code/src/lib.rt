//! Code of a stack machine over bounded whole numbers: its instructions, its images, what one step does and how a call ends.
#![tactic(auto)]

mod error;
mod image;
mod instruction;
mod laws;
mod list;

pub use error::Memory;
pub use image::{
    CellKind, Code, DEFAULT_MAX, ElemNames, Image, NameText, NameTexts, OpEntries, OpEntry,
    Parameter, Parameters,
};
pub use instruction::{Inst, Trap};
pub use laws::{
    checked_images_are_safe, ends_are_exact, ends_are_unique, ends_stay, numbers_stand_for_values,
    pushes_store,
};
pub use list::Sequence;
