//! The least typing of a list of nodes, by unification.
#![tactic(auto)]

mod cell;
mod constrain;
mod emit;
pub mod laws;
mod least;
mod refusal;
mod typing;
mod unify;
mod walk;

pub use least::infer;
pub use refusal::InferRefusal;
pub use typing::{NodeArrow, Typing};
