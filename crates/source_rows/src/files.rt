//! Entries of data files, and what refuses them.

use hl_data::{Entry, Names};
use hl_files::{TextRefusal, WantedRefusal, param_names, read_entries, read_wanted};
use hl_lex::tokens;
use hl_parse::parse;
use hl_syntax::{HlType, TypedName, Wanted};
use hl_values::print_value;
use lists::Text;
use std::alloc::{AllocError, Global};
use std::test::Fail;

/// Data files, names that are asked for, and the entries that are read, or the refusal.
static ROWS: [(&str, &str, &str); 35] = [
    (
        "{\"a\": {\"value\": \"5\", \"type\": \"u8\"}}",
        "a b",
        "a=5 ",
    ),
    (
        "{\"a\": {\"value\": \"5\", \"type\": \"u8\"}, \"b\": {\"value\": \"(true, [])\", \"type\": \"(bool, [u1; 0])\"}}",
        "b a",
        "b=(true, []) a=5 ",
    ),
    ("", "a", "NotJson"),
    ("{", "a", "NotJson"),
    ("[]", "a", "NotJson"),
    ("\"a\"", "", "NotJson"),
    ("{} 1", "", "NotJson"),
    ("{\"a\": 5,}", "", "NotJson"),
    (" {} ", "a", ""),
    ("{\"a\": 5}", "a", "BadEntry a"),
    ("{\"a\": null}", "a", "BadEntry a"),
    ("{\"a\": [\"5\", \"u8\"]}", "a", "BadEntry a"),
    (
        "{\"a\": {\"value\": 5, \"type\": \"u8\"}}",
        "a",
        "BadEntry a",
    ),
    (
        "{\"a\": {\"value\": \"5\", \"type\": 8}}",
        "a",
        "BadEntry a",
    ),
    ("{\"a\": {\"value\": \"5\"}}", "a", "BadEntry a"),
    ("{\"a\": {\"type\": \"u8\"}}", "a", "BadEntry a"),
    (
        "{\"a\": {\"value\": \"5\", \"type\": \"u3\"}}",
        "a",
        "BadEntry a",
    ),
    (
        "{\"a\": {\"value\": \"5\", \"type\": \"A\"}}",
        "a",
        "BadEntry a",
    ),
    (
        "{\"a\": {\"value\": \"5\", \"type\": \"u8 u8\"}}",
        "a",
        "BadEntry a",
    ),
    (
        "{\"a\": {\"value\": \"5\", \"type\": \"#\"}}",
        "a",
        "BadEntry a",
    ),
    (
        "{\"a\": {\"value\": \"5\", \"type\": \"[u8; 65537]\"}}",
        "a",
        "BadEntry a",
    ),
    (
        "{\"a\": {\"value\": \"5\", \"type\": \"[u64; 65536]\"}}",
        "a",
        "BadEntry a",
    ),
    (
        "{\"a\": {\"value\": \"5\", \"type\": \"List<u8, 3>\"}}",
        "a",
        "BadEntry a",
    ),
    (
        "{\"a\": {\"value\": \"256\", \"type\": \"u8\"}}",
        "a",
        "BadValue a",
    ),
    (
        "{\"a\": {\"value\": \"\", \"type\": \"u8\"}}",
        "a",
        "BadValue a",
    ),
    (
        "{\"a\": {\"value\": \"x\", \"type\": \"u8\"}, \"b\": 5}",
        "b a",
        "BadEntry b",
    ),
    (
        "{\"a\": {\"value\": \"x\", \"type\": \"u8\"}, \"b\": 5}",
        "c a b",
        "BadValue a",
    ),
    (
        "{\"a\": 5, \"a\": {\"value\": \"5\", \"type\": \"u8\"}}",
        "a",
        "a=5 ",
    ),
    (
        "{\"a\": {\"value\": \"5\", \"type\": \"u8\"}, \"a\": 5}",
        "a",
        "BadEntry a",
    ),
    (
        "{\"a\": {\"value\": \"5\", \"value\": \"6\", \"type\": \"u8\"}}",
        "a",
        "a=6 ",
    ),
    (
        "{\"\\u0061\": {\"v\\u0061lue\": \"\\u0035\", \"type\": \"u\\u0038\"}}",
        "a",
        "a=5 ",
    ),
    (
        "{\"a\": {\"value\": \"/* \\\" */\\n5\", \"type\": \"u8 // \\\\\"}}",
        "a",
        "a=5 ",
    ),
    (
        "{\"c\": 7, \"d\": {\"value\": \"x\", \"type\": \"A\"}, \"a\": {\"value\": \"5\", \"type\": \"u8\"}}",
        "a",
        "a=5 ",
    ),
    (
        "{\"a\": {\"value\": \"5\", \"note\": [1, {}], \"type\": \"u8\"}}",
        "a",
        "a=5 ",
    ),
    ("{\"a\": \"\u{1}\"}", "", "NotJson"),
];

/// The same of names that are wanted with the type u8.
static WANTED: [(&str, &str, &str); 10] = [
    (
        "{\"a\": {\"value\": \"5\", \"type\": \"u8\"}, \"b\": {\"value\": \"6\", \"type\": \"u8\"}}",
        "b a",
        "b=6 a=5 ",
    ),
    ("[]", "a", "NotJson"),
    ("{\"a\": 5}", "", ""),
    (
        "{\"b\": {\"value\": \"6\", \"type\": \"u8\"}}",
        "a b",
        "Missing a",
    ),
    ("{\"b\": 5}", "a b", "Missing a"),
    ("{\"a\": 5}", "a b", "BadEntry a"),
    (
        "{\"a\": {\"value\": \"x\", \"type\": \"bool\"}}",
        "a",
        "TypeDiffers a",
    ),
    (
        "{\"a\": {\"value\": \"5\", \"type\": \"A\"}}",
        "a",
        "BadEntry a",
    ),
    (
        "{\"a\": {\"value\": \"256\", \"type\": \"u8\"}, \"b\": 5}",
        "a b",
        "BadValue a",
    ),
    (
        "{\"a\": {\"value\": \"5\", \"type\": \"u16\"}, \"b\": 5}",
        "b a",
        "BadEntry b",
    ),
];

/// The parameters of this program are B, A and C.
static PROGRAM: &str = "fn f(x: Option<u8>) -> u8 {
    let y: bool = param::B;
    match param::B { true => param::A, false => { let z: u8 = param::B; param::A }, }
}
fn main() { assert!(jet::eq_8(unwrap(Some(param::A)), f(param::C))); }";

fn names_of(alloc: Global, words: &str) -> Result<Names, AllocError> {
    let mut names = Names::new(alloc);
    for word in words.split_whitespace() {
        names.push(Text::from_str(alloc, word)?)?;
    }
    Ok(names)
}

/// Each entry as its name, `=`, its value and a space.
fn write_entries(alloc: Global, text: &mut String, entries: &[Entry]) -> Result<(), AllocError> {
    for entry in entries {
        let value = print_value(alloc, &entry.value)?;
        write!(text, "{}={} ", entry.name.as_str(), value.as_str())?;
    }
    Ok(())
}

/// What a file gives for names.
fn read(alloc: Global, file: &[u8], words: &str) -> Result<String, AllocError> {
    let mut text = String::new(alloc);
    match read_entries(alloc, file, &names_of(alloc, words)?) {
        Ok(entries) => write_entries(alloc, &mut text, entries.as_slice())?,
        Err(TextRefusal::NotJson) => text.push_str("NotJson")?,
        Err(TextRefusal::BadEntry { name }) => write!(&mut text, "BadEntry {}", name.as_str())?,
        Err(TextRefusal::BadValue { name }) => write!(&mut text, "BadValue {}", name.as_str())?,
        Err(TextRefusal::OutOfMemory) => text.push_str("OutOfMemory")?,
    }
    Ok(text)
}

/// What a file gives for names that are wanted with the type u8.
fn want(alloc: Global, file: &[u8], words: &str) -> Result<String, AllocError> {
    let mut wanted = Wanted::new(alloc);
    for word in words.split_whitespace() {
        let name = Text::from_str(alloc, word)?;
        wanted.push(TypedName {
            name,
            kind: HlType::UInt(8),
        })?;
    }
    let mut text = String::new(alloc);
    match read_wanted(alloc, file, &wanted) {
        Ok(entries) => write_entries(alloc, &mut text, entries.as_slice())?,
        Err(WantedRefusal::NotJson) => text.push_str("NotJson")?,
        Err(WantedRefusal::Missing { name }) => write!(&mut text, "Missing {}", name.as_str())?,
        Err(WantedRefusal::BadEntry { name }) => write!(&mut text, "BadEntry {}", name.as_str())?,
        Err(WantedRefusal::TypeDiffers { name }) => {
            write!(&mut text, "TypeDiffers {}", name.as_str())?;
        }
        Err(WantedRefusal::BadValue { name }) => write!(&mut text, "BadValue {}", name.as_str())?,
        Err(WantedRefusal::OutOfMemory) => text.push_str("OutOfMemory")?,
    }
    Ok(text)
}

#[test]
fn entries_of_rows(rt: HostRuntime) -> Result<(), Fail> {
    for (file, words, wanted) in ROWS.iter() {
        let got = read(rt.alloc(), file.as_bytes(), words)?;
        assert_eq!(rt; got.as_str(), *wanted, "at {file} {words}");
    }
    let got = read(rt.alloc(), b"{\"\xff\": 5}", "")?;
    assert_eq!(rt; got.as_str(), "NotJson", "at a byte that is no text");
    for (file, words, wanted) in WANTED.iter() {
        let got = want(rt.alloc(), file.as_bytes(), words)?;
        assert_eq!(rt; got.as_str(), *wanted, "at {file} wanted {words}");
    }
    Ok(())
}

#[test]
fn parameters_of_a_program(rt: HostRuntime) -> Result<(), Fail> {
    let found = tokens(rt.alloc(), PROGRAM)?;
    let program = parse(rt.alloc(), found.as_slice(), PROGRAM.len() as u64)?;
    let names = param_names(rt.alloc(), &program)?;
    let mut text = String::new(rt.alloc());
    for name in names.as_slice() {
        text.push_str(name.as_str())?;
    }
    assert_eq!(rt; text.as_str(), "BAC");
    Ok(())
}
