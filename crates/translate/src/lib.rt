//! The terms of typed expressions, made by a builder: the tree of each is the one that the definition of terms has
//! for it.
#![tactic(auto)]

mod finish;
mod gather;
mod leaf;
mod matches;
mod place;
mod walk;

pub use place::Place;
pub use walk::expression;
