//! What a form of an expression is asked.

use hl_syntax::{HlType, Rule, Span};

/// What a form of an expression is asked: its span, the type that it is to be of, and the rule by
/// which it is named where it isn't of the type itself.
#[derive(Clone, Copy)]
pub struct Asked<'a> {
    pub span: Span,
    pub expected: &'a HlType,
    pub rule: Rule,
}
