//! The status of a development for a safety case: what was read, what is to be shown and how far it is, as JSON and as HTML.
#![tactic(auto)]

mod claim;
mod html;
mod item;
mod json;
pub mod laws;
mod lines;
mod page;
mod report;
mod sums;

pub use claim::{Claims, claims_of_reports};
pub use html::html_page;
pub use item::{Item, Proof, Script, items};
pub use json::{json_text, list_json};
pub use lines::{list_text, report_text};
pub use report::{File, Input, Report, Stray, inputs};
pub use sums::{Sums, sums_of, sums_with};
