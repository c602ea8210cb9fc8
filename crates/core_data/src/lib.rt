//! Types and values of the core language as trees on the heap.
#![tactic(auto)]

mod data;
mod shrunk;

pub use data::{CoreType, CoreValue, CoreValues, has_type};
pub use shrunk::shrink;
