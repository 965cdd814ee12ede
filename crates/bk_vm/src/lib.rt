//! A machine that runs the code of a checked image.
#![tactic(auto)]

mod arithmetic;
mod end;
mod execute;
mod laws;
mod machine;
mod operation;

pub use end::CallEnd;
pub use laws::calls_make_a_session;
pub use machine::Machine;
