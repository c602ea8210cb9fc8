//! What is known at a place of a body.

use crate::scope::Scope;
use hl_syntax::Wanted;

/// The variables in scope at a place of a body, and the witnesses that were met before it.
#[derive(Drop)]
pub struct Body {
    pub scope: Scope,
    pub met: Wanted,
}
