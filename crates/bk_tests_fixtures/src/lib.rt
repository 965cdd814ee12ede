//! What tests build from few words: texts, formulas, substitutions; and proof files of worked developments.
#![tactic(auto)]

pub mod formulas;
pub mod parts;
pub mod proof_texts;
pub mod shapes;

pub use formulas::{
    always, binary, interval, leaf, literal, of_variables, unary, variable, with_number, within,
};
pub use parts::{becomes, text};
