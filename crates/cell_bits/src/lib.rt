//! Bits as a list: a writer that appends them and gives whole bytes, and a reader that goes through those of bytes.
#![tactic(auto)]

mod reader;
mod refusal;
mod writer;

pub use reader::BitReader;
pub use refusal::BitRefusal;
pub use writer::BitWriter;
