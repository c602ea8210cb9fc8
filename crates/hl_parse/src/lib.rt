//! Trees of the grammar: reading tokens by recursive descent with one token of look-ahead, but for
//! a word that wants its next symbol.
#![tactic(auto)]

mod item;
mod parser;

pub use parser::{ParseRefusal, parse, parse_type, parse_value};
