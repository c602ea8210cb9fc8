//! Which alternative of an expression the tokens ahead begin, with nothing taken.
#![tactic(auto)]

mod tokens;
mod words;

pub use tokens::{begins, is_allowed, start};
