//! The lines of a file.

ghost use Rattle.std.specs.Prelude.{◌≡◌, ◌==◌, IfOk};
ghost use Rattle.std.specs.Str.Lines.{strip_carriage_return};
ghost use Rattle.bundle_lines.specs.Lines.{lines_of};

use lists::Sequence;
use std::alloc::{AllocError, Global};

/// The bytes of a line, without its end.
pub type Line = Sequence<u8>;

/// The lines of a file.
pub type Lines = Sequence<Line>;

/// The lines of a file: it is cut at each line feed, a carriage return before that is dropped, and after a last line
/// feed there is no further line. An empty file is one empty line.
pub fn split(alloc: Global, text: &[u8]) -> Result<Lines, AllocError>
    ensures { IfOk result (λ lines. lines ≡ lines_of text.now) }
{
    let mut lines = Sequence::new(alloc);
    let mut open: Option<&[u8]> = None;
    'parts: for part in text.split(is_line_feed) {
        if let Some(ended) = open {
            lines.push(line(alloc, without_return(ended))?)?;
        }
        open = Some(part);
    }
    let last = open.unwrap_or(b"");
    if !last.is_empty() || text.is_empty() {
        lines.push(line(alloc, last)?)?;
    }
    Ok(lines)
}

/// A copy of a line's bytes.
fn line(alloc: Global, bytes: &[u8]) -> Result<Line, AllocError>
    ensures { IfOk result (λ line. line ≡ bytes.now) }
{
    Ok(Sequence::from_vec(Vec::from_slice(alloc, bytes)?))
}

/// What is before a line feed, without the carriage return at its end.
fn without_return(bytes: &[u8]) -> &[u8]
    ensures { result.now ≡ strip_carriage_return bytes.now }
{
    bytes.strip_suffix(b"\r").unwrap_or(bytes)
}

fn is_line_feed(byte: &u8) -> bool
    ensures { result ≡ (byte.now == 10) }
{
    *byte == b'\n'
}
