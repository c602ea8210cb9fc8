//! The files that a command reads: a list of names with their limits, read one after the other.
#![tactic(auto)]

mod files;
mod named;

pub use files::{NamedFile, read_files};
pub use named::next_named;
