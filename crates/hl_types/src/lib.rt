//! Types of the source language: what written types stand for, which types are the same, and the
//! forms of types.
#![tactic(auto)]

mod copies;
mod counts;
mod forms;
mod kinds;
mod names;
mod refusal;
mod same;
mod written;

pub use copies::copy_type;
pub use counts::{counted, is_list_bound};
pub use hl_syntax::{Aliases, HlType, HlTypes, TypedName, Wanted};
pub use kinds::structure;
pub use refusal::TypeRefusal;
pub use same::{same_form, same_type};
pub use written::resolve;
