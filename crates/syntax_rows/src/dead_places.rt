//! Where each rule of the grammar dies: the refusal of a text that breaks it.

use crate::refusals::write_refusal;
use hl_lex::tokens;
use hl_parse::{ParseRefusal, parse, parse_value};
use std::alloc::{AllocError, Global};
use std::test::Fail;

/// Texts that are no program, but a few that are.
static PROGRAMS: [(&str, &str); 56] = [
    ("", "fine"),
    ("fn f(", "Syntax 5..5"),
    ("fn f() { let x: u8 = 1 }", "Syntax 23..24"),
    ("fn f() {} x", "Syntax 10..11"),
    ("fn fn() {}", "Syntax 3..5"),
    ("type match = u8;", "Syntax 5..10"),
    ("type a u8;", "Syntax 7..9"),
    ("type a = u8", "Syntax 11..11"),
    ("type a = fn;", "Syntax 9..11"),
    ("fn f(a u8) {}", "Syntax 7..9"),
    ("fn f(a: u8; b: u8) {}", "Syntax 10..11"),
    ("fn f(,) {}", "Syntax 5..6"),
    ("fn f() -> {}", "Syntax 10..11"),
    ("fn f() u8 {}", "Syntax 7..9"),
    ("fn f() x", "Syntax 7..8"),
    ("fn f() { 1 2 }", "Syntax 11..12"),
    ("fn f() { let 1: u8 = 1; }", "Syntax 13..14"),
    ("fn f() { let (a, [_, b]) u8 = 1; }", "Syntax 25..27"),
    ("fn f() { let (a b): u8 = 1; }", "Syntax 16..17"),
    ("fn f() { let x = 1; }", "Syntax 15..16"),
    ("fn f() { let x: u8 1; }", "Syntax 19..20"),
    ("fn f() { [1; 2] }", "Syntax 11..12"),
    ("fn f() { (1 2) }", "Syntax 12..13"),
    ("fn f() { (,) }", "Syntax 10..11"),
    ("fn f() { list!(1) }", "Syntax 14..15"),
    ("fn f() { assert!() }", "Syntax 17..18"),
    ("fn f() { panic!(1) }", "Syntax 16..17"),
    ("fn f() { jet add_8(1) }", "Syntax 13..18"),
    ("fn f() { jet::add_8 }", "Syntax 20..21"),
    ("fn f() { witness:: }", "Syntax 19..20"),
    ("fn f() { <u8>into(1) }", "Syntax 13..17"),
    ("fn f() { <u8>::from(1) }", "Syntax 15..19"),
    ("fn f() { unwrap() }", "Syntax 16..17"),
    ("fn f() { unwrap_left(1) }", "fine"),
    ("fn f() { is_none::<u8>() }", "Syntax 23..24"),
    ("fn f() { fold::<g>(1, 2) }", "Syntax 17..18"),
    ("fn f() { fold::<g, 0x4>(1, 2) }", "Syntax 19..22"),
    ("fn f() { array_fold::<g, 4>(1) }", "Syntax 29..30"),
    ("fn f() { for_while::<g>(1, 2, 3) }", "Syntax 30..31"),
    ("fn f() { Left(1, 2) }", "Syntax 15..16"),
    ("fn f() { None! }", "Syntax 13..14"),
    ("fn f() { true:: }", "Syntax 13..15"),
    ("fn f() { a::b }", "Syntax 10..12"),
    ("fn f() { g(1; 2) }", "Syntax 12..13"),
    ("fn f() { match a { Left(x) => 1, } }", "Syntax 25..26"),
    ("fn f() { match a { 1 => 1 } }", "Syntax 19..20"),
    ("fn f() { match a { None = 1 } }", "Syntax 24..25"),
    (
        "fn f() { match a { None => 1 Some(x: u8) => 2 } }",
        "Syntax 29..33",
    ),
    ("fn f() { match a { None => {} Some(x: u8) => 2 } }", "fine"),
    (
        "fn f() { match a { None => ({}) Some(x: u8) => 2 } }",
        "Syntax 32..36",
    ),
    ("fn f() { match a { None => {}; } }", "Syntax 29..30"),
    ("fn f() { match a None => 1, }", "Syntax 17..21"),
    ("fn f() { 1", "Syntax 10..10"),
    ("fn f() { let x: List<u8> = 1; }", "Syntax 23..24"),
    ("fn f() { let x: [u8; 0x2] = 1; }", "Syntax 21..24"),
    ("fn f() { let x: Either<u8> = 1; }", "Syntax 25..26"),
];

/// Texts that are no value text.
static VALUES: [(&str, &str); 18] = [
    ("", "Syntax 0..0"),
    ("Left", "Syntax 4..4"),
    ("Left;", "Syntax 4..5"),
    ("Left(1", "Syntax 6..6"),
    ("Left(1, 2)", "Syntax 6..7"),
    ("list(1)", "Syntax 4..5"),
    ("list![1", "Syntax 7..7"),
    ("list![1; 2]", "Syntax 7..8"),
    ("None(1)", "Syntax 4..5"),
    ("true::a", "Syntax 4..6"),
    ("a", "Syntax 0..1"),
    ("f(1)", "Syntax 0..1"),
    ("{}", "Syntax 0..1"),
    ("(1, 2", "Syntax 5..5"),
    ("[1 2]", "Syntax 3..4"),
    ("match", "Syntax 0..5"),
    ("1 2", "Syntax 2..3"),
    ("u8", "Syntax 0..2"),
];

fn write_answer<T: Drop>(
    text: &mut String,
    answer: Result<T, ParseRefusal>,
) -> Result<(), AllocError> {
    match answer {
        Ok(_) => text.push_str("fine"),
        Err(refusal) => write_refusal(text, refusal),
    }
}

fn shown_program(alloc: Global, text: &str) -> Result<String, AllocError> {
    let mut shown = String::new(alloc);
    match tokens(alloc, text) {
        Ok(list) => write_answer(&mut shown, parse(alloc, list.as_slice(), text.len() as u64))?,
        Err(_) => shown.push_str("no tokens")?,
    }
    Ok(shown)
}

fn shown_value(alloc: Global, text: &str) -> Result<String, AllocError> {
    let mut shown = String::new(alloc);
    match tokens(alloc, text) {
        Ok(list) => write_answer(
            &mut shown,
            parse_value(alloc, list.as_slice(), text.len() as u64),
        )?,
        Err(_) => shown.push_str("no tokens")?,
    }
    Ok(shown)
}

#[test]
fn programs_that_die(rt: HostRuntime) -> Result<(), Fail> {
    for (text, wanted) in PROGRAMS.iter() {
        let got = shown_program(rt.alloc(), text)?;
        assert_eq!(rt; got.as_str(), *wanted, "at {text}");
    }
    Ok(())
}

#[test]
fn values_that_die(rt: HostRuntime) -> Result<(), Fail> {
    for (text, wanted) in VALUES.iter() {
        let got = shown_value(rt.alloc(), text)?;
        assert_eq!(rt; got.as_str(), *wanted, "at {text}");
    }
    Ok(())
}
