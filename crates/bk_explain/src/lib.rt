//! Why a task stops, in words: where the fault stands, and what could be written there.
#![tactic(auto)]

mod calls;
mod executed;
mod image;
mod level;
mod limit;
mod name;
mod project;
mod say;
mod source;
mod spelling;
mod stop;
mod tree;
mod written;

pub use source::{Source, SourceKind};
pub use stop::explanation;
