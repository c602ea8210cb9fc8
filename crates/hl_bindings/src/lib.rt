//! What binds, read from the tokens that are left: types, patterns, and the sides of arms, each up
//! to a depth.
#![tactic(auto)]

mod patterns;
mod sides;
mod type_texts;

pub use patterns::pattern;
pub use sides::side;
pub use type_texts::type_text;
