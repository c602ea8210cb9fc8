//! Rows of a table of terms as a list of nodes with declared arrows.
#![tactic(auto)]

mod list;
mod node;

pub use list::{RowList, list_rows};
