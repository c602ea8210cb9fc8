//! The term of a value that is given, at its type.
#![tactic(auto)]

mod values;

pub use values::add_value;
