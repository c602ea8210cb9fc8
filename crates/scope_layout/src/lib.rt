//! Layouts of scopes: where in the input of a term the value of a name stands.
//!
//! A scope is a list of what was bound, the innermost first; its value is a pair of what was bound last and the rest,
//! down to what the scope began with. The parts of a tuple or an array are paired by halves. So each name has a path
//! of takes and drops to its value.
#![tactic(auto)]

ghost use Rattle.scope_layout.specs.Laws.{PathsLead};

mod bound;
mod layout;
mod names;
mod path;

pub use bound::Sort;
pub use layout::{Layout, WitnessNames};
pub use path::{Path, Step};

/// The path of a name is there exactly where the name is bound. It can start from the scope's type, leads to the
/// form of the name's type, and gives the encoding of the first value of the name.
pub fn paths_lead_law()
    ensures { PathsLead }
{}
