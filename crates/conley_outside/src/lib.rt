//! The outside of a program: depots that files are fetched from, sinks that bytes are put into, and counts of their faults.
//! A contract sees what a depot tells of its files and a sink of its bytes, which may be nothing, and how often each has failed.
//! Open specs/Depot.antt and specs/Sink.antt first, then specs/Faults.antt.
//! One depot and one sink are in memory and tell all. The other two are the system's files and streams, and tell nothing.
#![tactic(auto)]

mod depot;
mod memory_depot;
mod memory_sink;
mod sink;
mod system;

pub use depot::{Depot, FetchError};
pub use memory_depot::MemoryDepot;
pub use memory_sink::MemorySink;
pub use sink::{Failed, Sink};
pub use system::{FileDepot, StreamSink};

/// Want of memory.
pub type NoMemory = std::alloc::AllocError;
