//! The evaluation of a function of a source, from the bytes of its files: its value as a line, or
//! why there is none.
#![tactic(auto)]

mod argument;
mod evaluation;
mod laws;

pub use evaluation::{GivenWords, evaluate_source};
pub use laws::one_evaluation_law;
