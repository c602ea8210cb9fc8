//! The source language, defined once for every layer that speaks of it, and laws of it: each
//! function below has no body, and its contract is a law.
#![tactic(auto)]

mod alternatives;

ghost use Rattle.simplicityhl.specs.Laws.{TokensCover, SpansRise};

pub use alternatives::{ExprAlternative, PatternAlternative, SideAlternative, TypeAlternative};

/// The tokens of a text cover it: what lies around them is white space and comments.
pub fn tokens_cover_law()
    ensures { TokensCover }
{}

/// The spans of a text's tokens rise, are disjoint and lie in the text.
pub fn spans_rise_law()
    ensures { SpansRise }
{}
