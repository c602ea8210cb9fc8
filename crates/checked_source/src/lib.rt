//! What the commands on a source begin with: from the bytes of a source and of the file of its
//! parameters' entries to a typed program, and from the file of the witnesses' entries to entries
//! of the types that the program wants; or the first refusal.
#![tactic(auto)]

mod object;
mod refusals;
mod source;
mod witness;

pub use source::{AskedSource, check_source};
pub use witness::{given_entries, witness_entries};
