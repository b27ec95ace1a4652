//! Bytes in and out: sources that are read and sinks that are written, in memory and real ones.
#![tactic(auto)]

mod mem_sink;
mod mem_source;
mod real;
mod schedule;
mod sinks;
mod sources;
mod whole;

pub use mem_sink::MemSink;
pub use mem_source::{MemFile, MemSource};
pub use real::{FileSource, StdSink};
pub use sinks::Sink;
pub use sources::{Failed, Source};
pub use whole::{ReadAll, WriteFault, read_all, write_all};
