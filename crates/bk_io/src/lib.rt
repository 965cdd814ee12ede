//! Devices that give and take bytes: shelves of named files and sinks, each with a written meaning that contracts see.
#![tactic(auto)]

mod edge;
pub mod laws;
mod mem_shelf;
mod mem_sink;
mod part;
mod schedule;
mod shelf;
mod sink;
mod store;
mod text;

pub use edge::{FileShelf, StdSink};
pub use mem_shelf::{MemShelf, SureShelf, have_distinct_names};
pub use mem_sink::{MemSink, SureSink};
pub use part::Part;
pub use shelf::{Fetch, Shelf};
pub use sink::{Sink, SinkFault, put_all};
pub use text::{Memory, Text};
