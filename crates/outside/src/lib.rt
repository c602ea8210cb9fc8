//! What a program sees of the world: files that it reads, and sinks that it writes to.
//!
//! [`MemoryFiles`] and [`MemorySink`] stand in memory, tell what they hold and fail where they are
//! told to. [`HostFiles`] and [`StdSink`] are the system's, and tell nothing.
#![tactic(auto)]

mod files;
mod host_files;
mod memory_files;
mod memory_sink;
mod opener;
mod sink;
mod std_sink;

pub use files::{FileRefusal, Files};
pub use host_files::HostFiles;
pub use memory_files::MemoryFiles;
pub use memory_sink::MemorySink;
pub use sink::{Sink, SinkFailed};
pub use std_sink::StdSink;
