//! The words that literals of the source language spell.
#![tactic(auto)]

mod literal;

pub use literal::word_spelled;
