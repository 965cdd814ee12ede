//! The texts of rules in proof files.
#![tactic(auto)]

mod rule;

pub use rule::{part, rule_text, rule_tokens};
