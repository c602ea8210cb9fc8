//! The instructions of the Bit Machine on frames, with what they cost.
#![tactic(auto)]

mod laws;
mod start;
mod trace;

pub use laws::turns_are_taken_law;
pub use trace::{Instruction, Totals, Trace};
