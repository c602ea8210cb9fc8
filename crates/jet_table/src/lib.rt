//! The table of jets.
#![tactic(auto)]

mod families;
mod row;
mod table;

pub use row::{JetKind, JetRow};
pub use table::{JETS, JetTable, profile};
