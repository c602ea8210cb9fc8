//! Values of the source language: read from texts, printed, and encoded in the core language.
#![tactic(auto)]

mod decode;
mod encode;
mod join;
mod print;
mod read;
mod refusal;
mod written;

pub use decode::from_core;
pub use encode::to_core;
pub use hl_data::{Entries, Entry, HlValue, HlValues, Names};
pub use hl_literals::word_spelled;
pub use print::print_value;
pub use read::read_value;
pub use refusal::ValueRefusal;
