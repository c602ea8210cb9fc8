//! Sources and the rules that they break.

ghost use Rattle.std.specs.Prelude.{IfOk};
ghost use Rattle.hl_meaning.specs.Entries.{AreValued};

use hl_check::{CheckRefusal, check};
use hl_data::{Entries, Entry, HlValue};
use hl_lex::tokens;
use hl_parse::parse;
use hl_syntax::{HlType, Program, Rule, Span};
use lists::Text;
use std::alloc::Global;
use std::test::Fail;

/// Sources, the rule that each breaks first, and the span's start and end: one for each rule, and
/// then such as break a further rule that comes later in the walk.
static ROWS: [(&str, Rule, u64, u64); 69] = [
    ("fn f() {} fn f() {} fn main() {}", Rule::K1, 13, 14),
    ("fn main() { let x: t = (); }", Rule::K2, 19, 20),
    ("fn main() { f() }", Rule::K3, 12, 13),
    ("fn main() { x }", Rule::K4, 12, 13),
    ("fn f(x: u8, x: u8) {} fn main() {}", Rule::K5, 12, 13),
    ("fn main() { let x: u8 = true; }", Rule::K6, 24, 28),
    ("fn main() { let x: u8 = 256; }", Rule::K7, 24, 27),
    ("fn main() { let x: (u8, u8) = (1,); }", Rule::K8, 30, 34),
    (
        "fn main() { let x: List<u8, 2> = list![1, 2]; }",
        Rule::K9,
        33,
        44,
    ),
    (
        "fn main() { let x: List<u8, 3> = list![]; }",
        Rule::K10,
        28,
        29,
    ),
    ("fn f() {} fn main() { f(1) }", Rule::K11, 22, 26),
    (
        "fn main() { let x: u8 = <u16>::into(1); }",
        Rule::K12,
        24,
        38,
    ),
    (
        "fn main() { match true { true => {}, Left(x: u8) => {}, } }",
        Rule::K13,
        12,
        57,
    ),
    (
        "fn f(x: u8) {} fn main() { fold::<f, 2>(list![], ()) }",
        Rule::K14,
        34,
        35,
    ),
    (
        "fn f(x: u8, y: u8) -> u8 { y } fn main() { let z: u8 = fold::<f, 3>(list![], 1); }",
        Rule::K15,
        65,
        66,
    ),
    (
        "fn f() -> u8 { witness::w } fn main() {}",
        Rule::K16,
        24,
        25,
    ),
    (
        "fn main() { let x: u8 = witness::w; let y: u8 = witness::w; }",
        Rule::K17,
        57,
        58,
    ),
    ("fn main() { let x: u8 = param::q; }", Rule::K18, 31, 32),
    ("fn main() { let x: u8 = param::p; }", Rule::K19, 31, 32),
    ("fn f() {}", Rule::K20, 9, 9),
    ("fn main(x: u8) {}", Rule::K21, 3, 7),
    ("fn main() { jet::bip_0340_verify(); }", Rule::K22, 17, 32),
    ("fn main() { 1; }", Rule::K23, 12, 13),
    ("fn fold() {} fn main() {}", Rule::K24, 3, 7),
    ("type a = u8; type a = t; fn main() {}", Rule::K1, 18, 19),
    ("type bool = t; fn main() {}", Rule::K24, 5, 9),
    ("fn fold(Left: u8) {} fn main() {}", Rule::K24, 3, 7),
    (
        "fn f() {} fn f(x: u8, x: u8) {} fn main() {}",
        Rule::K1,
        13,
        14,
    ),
    ("fn f(Left: t) {} fn main() {}", Rule::K24, 5, 9),
    ("fn f(x: u8, x: t) {} fn main() {}", Rule::K5, 12, 13),
    ("fn f(x: t) -> s {} fn main() {}", Rule::K2, 8, 9),
    ("fn main() -> t {}", Rule::K2, 13, 14),
    ("fn main() -> u8 { x }", Rule::K21, 3, 7),
    ("fn main() { let x: (t, s) = (); }", Rule::K2, 20, 21),
    ("fn main() { let (a, a): t = 1; }", Rule::K2, 24, 25),
    ("fn main() { let (a, a): (u8, u8) = 1; }", Rule::K5, 20, 21),
    ("fn main() { let (a, a): u8 = 1; }", Rule::K6, 16, 22),
    (
        "fn main() { let (a, a): (u8, u8, u8) = 1; }",
        Rule::K8,
        16,
        22,
    ),
    ("fn main() { let x: u8 = true; y }", Rule::K6, 24, 28),
    ("fn main() { 1; y }", Rule::K23, 12, 13),
    (
        "fn main() { match x { Left(a: t) => {}, Left(b: u8) => {}, } }",
        Rule::K13,
        12,
        60,
    ),
    (
        "fn main() { match x { Left(a: t) => {}, Right(b: s) => {}, } }",
        Rule::K2,
        30,
        31,
    ),
    (
        "fn main() { match x { Left(a: u8) => y, Right(b: u8) => {}, } }",
        Rule::K4,
        18,
        19,
    ),
    (
        "fn main() { match true { false => x, true => y, } }",
        Rule::K4,
        34,
        35,
    ),
    ("fn main() { let a: bool = 256; }", Rule::K6, 26, 29),
    ("fn main() { let a: u8 = Some(x); }", Rule::K6, 24, 31),
    ("fn main() { let a: (u8, u8) = (x,); }", Rule::K8, 30, 34),
    (
        "fn main() { let a: List<u8, 2> = list![x, y]; }",
        Rule::K9,
        33,
        44,
    ),
    ("fn main() { f(x) }", Rule::K3, 12, 13),
    ("fn f() -> u8 { 1 } fn main() { f(x) }", Rule::K11, 31, 35),
    (
        "fn f(a: u8) -> u8 { a } fn main() { let a: bool = f(x); }",
        Rule::K6,
        50,
        54,
    ),
    ("fn main() { jet::none(x) }", Rule::K22, 17, 21),
    ("fn main() { jet::add_8(x) }", Rule::K11, 12, 25),
    (
        "fn main() { let a: bool = jet::add_8(x, y); }",
        Rule::K6,
        26,
        42,
    ),
    (
        "fn f() { let a: u8 = witness::w; let b: u8 = witness::w; } fn main() {}",
        Rule::K16,
        30,
        31,
    ),
    ("fn main() { let a: u8 = assert!(x); }", Rule::K6, 24, 34),
    (
        "fn main() { let a: u8 = unwrap_left::<t>(x); }",
        Rule::K2,
        38,
        39,
    ),
    (
        "fn main() { let a: u8 = is_none::<t>(x); }",
        Rule::K2,
        34,
        35,
    ),
    (
        "fn main() { let a: u8 = is_none::<u8>(x); }",
        Rule::K6,
        24,
        40,
    ),
    ("fn main() { let a: u8 = <t>::into(x); }", Rule::K2, 25, 26),
    (
        "fn main() { let a: u8 = <u16>::into(x); }",
        Rule::K12,
        24,
        38,
    ),
    ("fn main() { fold::<f, 3>(x, y) }", Rule::K3, 19, 20),
    (
        "fn f() {} fn main() { fold::<f, 3>(x, y) }",
        Rule::K15,
        32,
        33,
    ),
    (
        "fn f() -> u8 { 1 } fn main() { let a: bool = fold::<f, 2>(x, y); }",
        Rule::K14,
        52,
        53,
    ),
    (
        "fn f(a: u8, b: u8) -> u8 { b } fn main() { let a: bool = fold::<f, 2>(x, y); }",
        Rule::K6,
        57,
        75,
    ),
    (
        "fn f(a: u8, b: u8) -> u8 { b } fn main() { let a: u8 = fold::<f, 2>(x, y); }",
        Rule::K4,
        68,
        69,
    ),
    ("fn f() { x }", Rule::K4, 9, 10),
    (
        "fn main() { let x: u8 = 1; let x: bool = true; let y: u8 = x; }",
        Rule::K6,
        59,
        60,
    ),
    ("type a = a; fn main() {}", Rule::K2, 9, 10),
];

/// The tree of a source text.
fn tree_of(alloc: Global, text: &str) -> Result<Program, Fail> {
    let found = tokens(alloc, text)?;
    Ok(parse(alloc, found.as_slice(), text.len() as u64)?)
}

/// The value of one parameter: `p` is `true`.
fn entries(alloc: Global) -> Result<Entries, Fail>
    ensures { IfOk result AreValued }
{
    let mut params = Entries::new(alloc);
    params.push(Entry {
        name: Text::from_str(alloc, "p")?,
        kind: HlType::Bool,
        value: HlValue::Bool(true),
    })?;
    Ok(params)
}

#[test]
fn first_rules(rt: HostRuntime) -> Result<(), Fail> {
    let params = entries(rt.alloc())?;
    for (text, rule, start, end) in ROWS.iter() {
        let program = tree_of(rt.alloc(), text)?;
        let refusal = check(rt.alloc(), &program, "main", &params, 1, text.len() as u64).err();
        let span = Span {
            start: *start,
            end: *end,
        };
        let wanted = CheckRefusal::Rule { rule: *rule, span };
        assert_eq!(rt; refusal, Some(wanted), "at {text}");
    }
    Ok(())
}

/// A program with most forms, which breaks nothing.
const WHOLE: &str =
    "type t = Either<u8, bool>; fn f(x: u8, y: u8) -> u8 { y } fn g(a: u8, c: (), i: u8) -> Either<(), u8> { Right(a) } fn main() { let (p, _): (u8, bool) = (witness::b, param::p); let e: t = Left(1); let s: u8 = match e { Left(x: u8) => x, Right(y: bool) => 2, }; let l: u8 = fold::<f, 4>(list![1, 2, 3], p); let r: u8 = array_fold::<f, 2>([p, s], 0); let o: Either<(), u8> = for_while::<g>(1, ()); let n: bool = is_none::<u8>(Some(l)); assert!(n); let v: u8 = unwrap_left::<bool>(Left(f(unwrap(Some(7)), r))); let w: u16 = <(u8, u8)>::into((1, 2)); let q: (bool, u8) = jet::add_8(v, 1); let z: bool = witness::a; dbg!(()) }";

#[test]
fn witnesses_in_order(rt: HostRuntime) -> Result<(), Fail> {
    let params = entries(rt.alloc())?;
    let program = tree_of(rt.alloc(), WHOLE)?;
    let found = check(rt.alloc(), &program, "main", &params, 1, WHOLE.len() as u64)?;
    assert_eq!(rt; found.functions().len(), 3);
    assert_eq!(rt; found.witnesses().len(), 2);
    for (one, wanted) in found.witnesses().as_slice().iter().zip(["b", "a"].iter()) {
        assert_eq!(rt; one.name.as_str(), *wanted);
    }
    Ok(())
}

/// Sources with a witness that stands twice, and where K17 is broken in edition 1 and in edition 2.
static TWICE: [(&str, Span, Option<Span>); 3] = [
    (
        "fn main() { assert!(jet::eq_8(witness::X, 7)); assert!(jet::eq_8(witness::X, 7)); }",
        Span { start: 74, end: 75 },
        None,
    ),
    (
        "fn main() { let a: u8 = witness::X; let b: u16 = witness::X; }",
        Span { start: 58, end: 59 },
        Some(Span { start: 58, end: 59 }),
    ),
    (
        "fn main() { let a: u8 = witness::X; let b: bool = witness::Y; let c: u8 = witness::X; }",
        Span { start: 83, end: 84 },
        None,
    ),
];

/// A refusal by K17.
fn repeated(span: Span) -> CheckRefusal {
    CheckRefusal::Rule {
        rule: Rule::K17,
        span,
    }
}

#[test]
fn witnesses_of_both_editions(rt: HostRuntime) -> Result<(), Fail> {
    let params = entries(rt.alloc())?;
    for (text, first, second) in TWICE.iter() {
        let program = tree_of(rt.alloc(), text)?;
        let end = text.len() as u64;
        let refusal = check(rt.alloc(), &program, "main", &params, 1, end).err();
        assert_eq!(rt; refusal, Some(repeated(*first)), "at {text}");
        let refusal = check(rt.alloc(), &program, "main", &params, 2, end).err();
        assert_eq!(rt; refusal, second.map(repeated), "at {text}");
    }
    Ok(())
}

#[test]
fn witnesses_at_their_first_places(rt: HostRuntime) -> Result<(), Fail> {
    let params = entries(rt.alloc())?;
    let text = TWICE[2].0;
    let program = tree_of(rt.alloc(), text)?;
    let found = check(rt.alloc(), &program, "main", &params, 2, text.len() as u64)?;
    assert_eq!(rt; found.edition(), 2);
    assert_eq!(rt; found.witnesses().len(), 2);
    for (one, wanted) in found.witnesses().as_slice().iter().zip(["X", "Y"].iter()) {
        assert_eq!(rt; one.name.as_str(), *wanted);
    }
    Ok(())
}
