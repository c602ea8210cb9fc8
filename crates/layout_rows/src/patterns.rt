//! Patterns by their parts, and paths in letters.

use hl_syntax::{Pattern, PatternForm, Patterns, Span};
use lists::Text;
use scope_layout::{Path, Step};
use std::alloc::{AllocError, Global};
use std::test::Fail;

/// A part of a pattern, written after its own parts.
#[derive(Clone, Copy)]
pub(crate) enum Part {
    Name(&'static str),
    Ignored,
    /// A tuple of so many parts.
    Tuple(usize),
    /// An array of so many.
    Array(usize),
}

/// A pattern that no text has.
fn pattern(form: PatternForm) -> Pattern {
    Pattern {
        form,
        span: Span { start: 0, end: 0 },
    }
}

/// The pattern that is a name.
fn named(alloc: Global, name: &str) -> Result<Pattern, AllocError> {
    Ok(pattern(PatternForm::Name(Text::from_str(alloc, name)?)))
}

/// The last so many of the patterns that were made.
fn taken(made: &mut Vec<Pattern>, count: usize) -> Result<Patterns, AllocError> {
    let first = made.len() - count.min(made.len());
    Ok(Patterns::from_vec(made.split_off(first)?))
}

/// The pattern of a part, from those that were made before it.
fn pattern_of(alloc: Global, made: &mut Vec<Pattern>, part: Part) -> Result<Pattern, AllocError> {
    match part {
        Part::Name(name) => named(alloc, name),
        Part::Ignored => Ok(pattern(PatternForm::Ignore)),
        Part::Tuple(count) => Ok(pattern(PatternForm::Tuple(taken(made, count)?))),
        Part::Array(count) => Ok(pattern(PatternForm::Array(taken(made, count)?))),
    }
}

/// The patterns of these parts.
pub(crate) fn patterns(alloc: Global, parts: &[Part]) -> Result<Vec<Pattern>, AllocError> {
    let mut made = Vec::new(alloc);
    for next in parts {
        let next = pattern_of(alloc, &mut made, *next)?;
        made.push(next)?;
    }
    Ok(made)
}

/// Whether a path is the one in letters: O is a take, I a drop, H the input itself; a dash where there is none.
pub(crate) fn is_written(path: Option<Path>, letters: &str) -> bool {
    let Some(path) = path else {
        return letters == "-";
    };
    let letters = letters.as_bytes();
    let steps = path.as_slice();
    letters.len() == steps.len() + 1
        && steps
            .iter()
            .zip(letters.iter())
            .all(|(step, letter)| is_step(*step, *letter))
}

fn is_step(step: Step, letter: u8) -> bool {
    match step {
        Step::Take => letter == b'O',
        Step::Drop => letter == b'I',
    }
}

/// A test that fails with a name.
pub(crate) fn expect(holds: bool, name: &'static str) -> Result<(), Fail> {
    if holds { Ok(()) } else { Err(Fail::from(name)) }
}
