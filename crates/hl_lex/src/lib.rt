//! Tokens of a source text: the text's list of tokens, or its first fault.
#![tactic(auto)]

mod front;
mod lexer;
mod literal;
mod refusal;
mod symbol;

pub use lexer::tokens;
pub use refusal::LexRefusal;
