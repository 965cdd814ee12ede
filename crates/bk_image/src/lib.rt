//! Images as bytes: the one spelling of each, and the loader that takes no other bytes.
#![tactic(auto)]

mod depths;
mod fault;
mod laws;
mod loader;
mod numbers;
mod reading;
mod version;
mod writing;

pub use bk_code::Memory;
pub use fault::LoadFault;
pub use laws::spellings_are_unique;
pub use loader::load;
pub use writing::write;
