//! The texts that the program writes: the line of a project that is read, the status table, the obligations, and the listing of code.
#![tactic(auto)]

mod check;
mod code;
mod numbers;
mod obligations;
mod table;

pub use check::check_line;
pub use code::listing;
pub use obligations::obligation_text;
pub use table::table_text;
