//! What is known at a place of a source text, and what a name, a pattern, a written type or a shape
//! of a type means there, or the rule or limit that it breaks.
#![tactic(auto)]

mod asked;
mod body;
mod context;
mod copies;
mod counts;
mod declared;
mod leaf;
mod loops;
mod names;
mod pattern;
mod refusal;
mod scope;
mod shapes;
mod sides;
mod signature;
mod witnesses;

pub use asked::Asked;
pub use body::Body;
pub use context::Checker;
pub use copies::copy_pattern;
pub use counts::counted;
pub use declared::{declare_alias, has_function, head};
pub use loops::{fold_shape, while_shape};
pub use pattern::bind_pattern;
pub use refusal::{CheckRefusal, needs};
pub use scope::Scope;
pub use shapes::{
    array_parts, either_sides, is_bool, is_unit, list_parts, number_width, option_item, tuple_parts,
};
pub use sides::{
    are_sides, array_type, either_type, list_type, matched_type, option_type, side_at,
};
pub use signature::{argument_types, jet_row, result_type};
pub use witnesses::listed;
