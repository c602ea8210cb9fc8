//! What stands in expressions, given the reader of the expressions in them: lists of those, and the
//! forms of a word with its operands.
#![tactic(auto)]

mod forms;
mod inner;
mod operands;

pub use inner::Inner;
