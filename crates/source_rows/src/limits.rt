//! Sources and the limits that they break, long blocks and deep ones.

use hl_check::{CheckRefusal, check};
use hl_data::Entries;
use hl_lex::tokens;
use hl_parse::parse;
use hl_syntax::{Limit, Rule, Span};
use std::alloc::{AllocError, Global};
use std::test::Fail;

/// Sources, the limit that each breaks first, and the span's start and end.
static LIMITS: [(&str, Limit, u64, u64); 6] = [
    ("fn main() { let x: [u8; 65537] = []; }", Limit::L4, 24, 29),
    (
        "fn main() { let x: List<u8, 65537> = list![]; }",
        Limit::L4,
        28,
        33,
    ),
    (
        "fn f(x: u8, y: u8) -> u8 { y } fn main() { let z: u8 = fold::<f, 65537>(list![], 1); }",
        Limit::L4,
        65,
        70,
    ),
    (
        "fn f(x: u8, y: u8) -> u8 { y } fn main() { let z: u8 = array_fold::<f, 65537>([], 1); }",
        Limit::L4,
        71,
        76,
    ),
    (
        "fn main() { let x: [[u8; 65536]; 3] = []; }",
        Limit::L5,
        19,
        35,
    ),
    (
        "fn main() { let x: ([[u8; 65536]; 3], t) = (); }",
        Limit::L5,
        20,
        36,
    ),
];

/// Sources that break a limit too, but first a rule.
static RULES: [(&str, Rule, u64, u64); 2] = [
    ("fn main() { let x: [t; 65537] = []; }", Rule::K2, 20, 21),
    (
        "fn main() { let z: u8 = fold::<g, 65537>(list![], 1); }",
        Rule::K3,
        31,
        32,
    ),
];

/// What a source text breaks first, of which `main` is asked for and which has no entries.
fn refusal_of(alloc: Global, text: &str) -> Result<Option<CheckRefusal>, Fail> {
    let end = text.len() as u64;
    let found = tokens(alloc, text)?;
    let program = parse(alloc, found.as_slice(), end)?;
    let params = Entries::new(alloc);
    Ok(check(alloc, &program, "main", &params, 1, end).err())
}

#[test]
fn first_limits(rt: HostRuntime) -> Result<(), Fail> {
    for (text, limit, start, end) in LIMITS.iter() {
        let span = Span {
            start: *start,
            end: *end,
        };
        let wanted = CheckRefusal::Limit {
            limit: *limit,
            span,
        };
        assert_eq!(rt; refusal_of(rt.alloc(), text)?, Some(wanted), "at {text}");
    }
    for (text, rule, start, end) in RULES.iter() {
        let span = Span {
            start: *start,
            end: *end,
        };
        let wanted = CheckRefusal::Rule { rule: *rule, span };
        assert_eq!(rt; refusal_of(rt.alloc(), text)?, Some(wanted), "at {text}");
    }
    Ok(())
}

/// The statement of a long block.
const STATEMENT: &str = "let x:u8=1;";

/// A program whose block has 20,000 statements, and then an expression.
fn long_block(alloc: Global, last: &str) -> Result<String, AllocError> {
    let mut text = String::new(alloc);
    text.push_str("fn main() {")?;
    for _ in 0..20000u16 {
        text.push_str(STATEMENT)?;
    }
    text.push_str(last)?;
    text.push_str("}")?;
    Ok(text)
}

#[test]
fn long_blocks(rt: HostRuntime) -> Result<(), Fail> {
    let sound = long_block(rt.alloc(), "()")?;
    assert_eq!(rt; refusal_of(rt.alloc(), sound.as_str())?, None);
    let broken = long_block(rt.alloc(), "y")?;
    let span = Span {
        start: 220011,
        end: 220012,
    };
    let wanted = CheckRefusal::Rule {
        rule: Rule::K4,
        span,
    };
    assert_eq!(rt; refusal_of(rt.alloc(), broken.as_str())?, Some(wanted));
    Ok(())
}

/// A program whose body is so many blocks in one another.
fn deep_blocks(alloc: Global, count: usize) -> Result<String, AllocError> {
    let opened = "{".repeat(alloc, count)?;
    let closed = "}".repeat(alloc, count)?;
    format!(in alloc; "fn main() {opened}{closed}")
}

#[test]
fn blocks_as_deep_as_may_be(rt: HostRuntime) -> Result<(), Fail> {
    let deep = deep_blocks(rt.alloc(), 128)?;
    assert_eq!(rt; refusal_of(rt.alloc(), deep.as_str())?, None);
    Ok(())
}
