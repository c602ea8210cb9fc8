//! Types of rows: forms, spans and refusals.

use crate::refusals::{nested, write_refusal};
use hl_lex::tokens;
use hl_parse::parse_type;
use hl_syntax::{TypeForm, TypeText};
use std::alloc::{AllocError, Global};
use std::test::Fail;

/// Texts, and what they are as types: the outermost form with its span, or the refusal.
static ROWS: [(&str, &str); 22] = [
    ("u8", "Name 0..2"),
    ("List", "Name 0..4"),
    ("list", "Name 0..4"),
    ("(u8)", "Name 1..3"),
    ("( ( u8 ) )", "Name 4..6"),
    ("(u8,)", "Tuple of 1 0..5"),
    ("()", "Tuple of 0 0..2"),
    ("(u8, bool)", "Tuple of 2 0..10"),
    ("(u8, (), )", "Tuple of 2 0..10"),
    ("[u8; 4_0]", "Array 0..9"),
    (" List<[u8; 2], 16>", "List 1..18"),
    ("Option<bool>", "Option 0..12"),
    ("Either<u8, (u16, u32)>", "Either 0..22"),
    ("", "Syntax 0..0"),
    ("(u8", "Syntax 3..3"),
    ("u8 u8", "Syntax 3..5"),
    ("(,)", "Syntax 1..2"),
    ("[u8]", "Syntax 3..4"),
    ("[u8; 0x4]", "Syntax 5..8"),
    ("List<u8>", "Syntax 7..8"),
    ("fn", "Syntax 0..2"),
    ("Option::<u8>", "Syntax 6..8"),
];

fn write_type(text: &mut String, tree: &TypeText) -> Result<(), AllocError> {
    match &tree.form {
        TypeForm::Tuple(parts) => write!(text, "Tuple of {}", parts.len())?,
        TypeForm::Array(..) => text.push_str("Array")?,
        TypeForm::List(..) => text.push_str("List")?,
        TypeForm::Option(_) => text.push_str("Option")?,
        TypeForm::Either(..) => text.push_str("Either")?,
        TypeForm::Name(_) => text.push_str("Name")?,
    }
    write!(text, " {}..{}", tree.span.start, tree.span.end)
}

fn shown(alloc: Global, text: &str) -> Result<String, AllocError> {
    let mut shown = String::new(alloc);
    match tokens(alloc, text) {
        Ok(list) => match parse_type(alloc, list.as_slice(), text.len() as u64) {
            Ok(tree) => write_type(&mut shown, &tree)?,
            Err(refusal) => write_refusal(&mut shown, refusal)?,
        },
        Err(_) => shown.push_str("no tokens")?,
    }
    Ok(shown)
}

#[test]
fn types_of_rows(rt: HostRuntime) -> Result<(), Fail> {
    for (text, wanted) in ROWS.iter() {
        let got = shown(rt.alloc(), text)?;
        assert_eq!(rt; got.as_str(), *wanted, "at {text}");
    }
    Ok(())
}

#[test]
fn types_as_deep_as_may_be(rt: HostRuntime) -> Result<(), Fail> {
    let deep = nested(rt.alloc(), "u8", 127)?;
    let got = shown(rt.alloc(), deep.as_str())?;
    assert_eq!(rt; got.as_str(), "Name 127..129", "127 pairs");
    let deeper = nested(rt.alloc(), "u8", 128)?;
    let got = shown(rt.alloc(), deeper.as_str())?;
    assert_eq!(rt; got.as_str(), "TooDeep 128..130", "128 pairs");
    Ok(())
}
