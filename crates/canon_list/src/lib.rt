//! The canonical list of a term of a table: its different subterms, reordered under their least typing.
#![tactic(auto)]

mod canon;
mod gathering;
mod subterms;

pub use canon::{Canon, canonical};
