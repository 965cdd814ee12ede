//! Proof files, read from texts.
#![tactic(auto)]

mod certificate;
mod differing;
mod fault;
mod files;
mod held;
mod law;
pub mod laws;
mod name;
mod part;
mod place;
mod reading;
mod rule;
mod script;
mod second;
mod terms;
mod token;
mod typed;
mod unread;

pub use fault::ScriptFault;
pub use files::scripts;
pub use held::Scripts;
pub use second::typed_names;
