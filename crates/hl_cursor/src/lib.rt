//! The tokens that are left of a list, and what reading from them answers: the next token where it
//! is the one that is asked for, or why reading stops there.
#![tactic(auto)]

mod cursor;
mod listed;
mod refused;
mod turn;

pub use cursor::{Cursor, is_keyword, next_symbol};
pub use listed::Listed;
pub use refused::Refused;
pub use turn::Turn;
