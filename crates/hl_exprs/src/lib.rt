//! Expressions, read from the tokens that are left: value texts and the bodies of functions, each up
//! to a depth.
#![tactic(auto)]

mod block;
mod expr;

pub use expr::{body, value};
