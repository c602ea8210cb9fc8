//! Which typed programs hold a construct whose terms the compiler doesn't make yet: calls of jets
//! and loops.
#![tactic(auto)]

mod laws;
mod search;

pub use laws::held_constructs_stand_law;
pub use search::unbuilt;
