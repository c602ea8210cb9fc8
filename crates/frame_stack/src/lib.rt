//! Frames of the Bit Machine on one buffer, whose memory is taken at the start.
#![tactic(auto)]

mod cells;
mod frames;
mod span;

pub use cells::Cell;
pub use frames::Frames;
