//! Data files: the values of a program's parameters and witnesses, and the input of a run, by
//! their names.
//!
//! A data file is a JSON object `{"NAME": {"value": "TEXT", "type": "TEXT"}}`. Of members of one
//! name the last counts. Further members of an entry are ignored, and so are entries that nothing
//! asks for, whatever they hold. A type text uses no alias.
#![tactic(auto)]

mod asked;
mod laws;
mod named;
mod object;
mod params;
mod refusal;
mod texts;

pub use asked::read_wanted;
pub use laws::{one_reading_law, one_wanted_reading_law};
pub use named::read_entries;
pub use params::param_names;
pub use refusal::{TextRefusal, WantedRefusal};
