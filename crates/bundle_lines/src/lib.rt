//! Bundle files: the program in base64, its root in hexadecimal digits and the witness stream in base64, a line each.
#![tactic(auto)]

mod fields;
mod lines;
mod refusal;
#[cfg(test)]
mod tests;

pub use fields::{decode_bits, decode_root, write_bundle};
pub use lines::{Line, Lines, split};
pub use refusal::LineRefusal;
