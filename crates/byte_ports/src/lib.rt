//! Where bytes come from and go to: sources and sinks that count their faults, ports in memory
//! for tests and proofs, and adapters over the readers and writers of std.

#![tactic(auto)]

mod memory;
mod port;
mod standard;
mod unfailing;
mod writing;

pub use memory::{MemorySink, MemorySource};
pub use port::{Failed, Sink, Source};
pub use standard::{StdSink, StdSource};
pub use unfailing::{CountSink, PlainSource};
pub use writing::write_all;
