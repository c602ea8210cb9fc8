//! What several modules of rows share.

use hl_parse::ParseRefusal;
use std::alloc::{AllocError, Global};

/// Why a text isn't parsed.
pub(crate) fn write_refusal(text: &mut String, refusal: ParseRefusal) -> Result<(), AllocError> {
    match refusal {
        ParseRefusal::Syntax { at } => write!(text, "Syntax {}..{}", at.start, at.end),
        ParseRefusal::TooDeep { at } => write!(text, "TooDeep {}..{}", at.start, at.end),
        ParseRefusal::OutOfMemory => text.push_str("OutOfMemory"),
    }
}

/// A text in so many parentheses.
pub(crate) fn nested(alloc: Global, inner: &str, count: usize) -> Result<String, AllocError> {
    let mut text = String::new(alloc);
    for _ in 0..count {
        text.push_str("(")?;
    }
    text.push_str(inner)?;
    for _ in 0..count {
        text.push_str(")")?;
    }
    Ok(text)
}
