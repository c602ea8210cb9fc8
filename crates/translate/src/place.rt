//! What a function's body is translated with.

use hl_syntax::{HlType, Pattern};
use hl_typed::TypedProgram;

/// The function at a place of a program, after those before it.
#[derive(Clone, Copy)]
pub struct Place<'a> {
    /// The program, which is typed.
    pub program: &'a TypedProgram,
    /// How many functions stand before the one whose body is translated.
    pub count: usize,
    /// `_`, for arms that bind nothing, with its type.
    pub nothing: &'a Pattern,
    pub unit: &'a HlType,
}
