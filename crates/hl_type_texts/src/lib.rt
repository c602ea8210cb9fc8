//! Type texts: types as they are written in data files and in the words of a command, where no
//! alias is known.
#![tactic(auto)]

mod refusal;
mod text;

pub use refusal::TypeTextRefusal;
pub use text::read_type;
