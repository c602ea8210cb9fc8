//! What trees are made of: a list, a box and a text that contracts see as what they hold.
//!
//! A contract sees a `Vec` with its room and a `Box` with its pointer, so two equal trees of them
//! differ. Trees of a `Sequence`, a `Boxed` and a `Text` are plain data: lists, values and bytes.
#![tactic(auto)]

mod boxed;
mod sequence;
mod text;

pub use boxed::Boxed;
pub use sequence::Sequence;
pub use text::Text;
