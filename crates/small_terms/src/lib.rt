//! From a small source to the list of its nodes.
#![tactic(auto)]

mod build;
mod entries;

pub use build::{BuildRefusal, build_small};
