//! The outside of the product as traits, each with what it tells and a count of its faults.
//!
//! A trait's implementation in memory tells what it holds, so that contracts can speak of it; a real
//! device tells nothing. A call answers a fault only where its object's count of faults rose in it.
#![tactic(auto)]

mod contents;
mod files;
mod links;
mod listens;
mod memory_files;
mod memory_listen;
mod memory_sink;
mod memory_source;
mod null_sink;
mod places;
mod same_files;
mod sinks;
mod sources;
mod steady_listen;

pub use files::{Files, FilesStop};
pub use links::{Link, LinkStop, Reply};
pub use listens::{Coming, Listen, ListenStop};
pub use memory_files::MemoryFiles;
pub use memory_listen::MemoryListen;
pub use memory_sink::MemorySink;
pub use memory_source::{MemorySource, SteadySource};
pub use null_sink::NullSink;
pub use places::place;
pub use same_files::SameFiles;
pub use sinks::{Failed, Sink, write_whole};
pub use sources::Source;
pub use steady_listen::SteadyListen;
