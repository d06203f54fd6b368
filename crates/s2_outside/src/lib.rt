//! What the engine knows of the world outside: streams of bytes that may fail, each with a count
//! of its faults.
#![tactic(auto)]

mod calls;
mod sinks;
mod sources;
mod streams;
#[cfg(test)]
mod tests;

pub use sinks::{MemSink, Sink};
pub use sources::{Failed, MemSource, Source};
pub use streams::{ReadStop, read_all, write_all};

/// Want of memory.
pub type Memory = std::alloc::AllocError;
