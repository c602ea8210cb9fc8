//! Core types by number: a table in which equal types have equal ids.
#![tactic(auto)]

mod shape;
mod table;
mod tree;

pub use shape::{Shape, TypeId};
pub use table::{MOST_WEIGHT, TypeTable};
