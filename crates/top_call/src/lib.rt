//! The top call: the command that the words ask for, over files and sinks, as the program runs it.
#![tactic(auto)]

mod build;
mod outcome;
mod top;

pub use command_outcome::Status;
pub use outcome::one_outcome;
pub use top::simphl;
