//! The bits of a program, both ways, and of a value.
#![tactic(auto)]

mod node;
mod place;
mod read;
mod refusal;
mod write;

pub use compact_codes::{CompactRefusal, read_compact, write_compact};
pub use read::{MOST_NODES, read_program};
pub use refusal::CodecRefusal;
pub use write::write_program;
