//! The words of a command: a verb, a file name, and words `key=value` in any order.
#![tactic(auto)]

mod edition;
mod key;
mod words;

pub use edition::Edition;
pub use key::Key;
pub use words::{Asked, EvalWords, read_words};
