//! Values as cells of the Bit Machine.
#![tactic(auto)]

mod write;

pub use write::write_cells;
