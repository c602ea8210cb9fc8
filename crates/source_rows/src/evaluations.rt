//! Sources and what their functions give.

ghost use Rattle.std.specs.Prelude.{IfOk};
ghost use Rattle.hl_meaning.specs.Entries.{AreValued, IsValued};
ghost use Rattle.simplicityhl.specs.Kinds.{IsSound};

use hl_check::{TypedProgram, check};
use hl_data::{Entries, Entry, HlValue};
use hl_eval::{EvalFault, evaluate};
use hl_lex::tokens;
use hl_parse::parse;
use hl_syntax::HlType;
use hl_type_texts::read_type;
use hl_values::{print_value, read_value};
use lists::Text;
use std::alloc::{AllocError, Global};
use std::test::Fail;

/// A source, the type of its function `f`'s argument, and for some arguments what it gives.
type Row = (
    &'static str,
    &'static str,
    &'static [(&'static str, &'static str)],
);

/// Calls of jets, folds, and blocks.
static JETS: [Row; 14] = [
    (
        "fn f(a: u8, b: u8) -> (bool, u8) { jet::add_8(a, b) }",
        "(u8, u8)",
        &[("(255, 1)", "(true, 0)")],
    ),
    (
        "fn f(a: u8, b: u8) -> (bool, u8) { jet::subtract_8(a, b) }",
        "(u8, u8)",
        &[("(0, 1)", "(true, 255)")],
    ),
    (
        "fn f(a: u8, b: u8) -> (u8, u8) { jet::div_mod_8(a, b) }",
        "(u8, u8)",
        &[("(7, 0)", "(0, 7)")],
    ),
    (
        "fn f(a: u8, b: u8, c: u8, d: u8) -> u16 { jet::full_multiply_8(a, b, c, d) }",
        "(u8, u8, u8, u8)",
        &[("(255, 255, 255, 255)", "65535")],
    ),
    (
        "fn f(a: u8, b: u8) -> bool { jet::divides_8(a, b) }",
        "(u8, u8)",
        &[("(0, 5)", "false"), ("(0, 0)", "true")],
    ),
    (
        "fn f(s: u4, a: u8) -> u8 { jet::left_shift_8(s, a) }",
        "(u4, u8)",
        &[("(8, 255)", "0")],
    ),
    (
        "fn f(s: u4, a: u8) -> u8 { jet::left_rotate_8(s, a) }",
        "(u4, u8)",
        &[("(8, 77)", "77")],
    ),
    (
        "fn f(b: bool, s: u4, a: u8) -> u8 { jet::right_shift_with_8(b, s, a) }",
        "(bool, u4, u8)",
        &[("(true, 3, 0)", "224")],
    ),
    (
        "fn step(x: u8, acc: u8) -> u8 { jet::xor_8(x, jet::left_shift_8(1, acc)) } fn f(l: List<u8, 4>) -> u8 { fold::<step, 4>(l, 0) }",
        "List<u8, 4>",
        &[("list![]", "0"), ("list![5, 6, 7]", "31")],
    ),
    ("fn f() { assert!(false); }", "()", &[("()", "failed")]),
    (
        "fn f(x: u8) -> u8 { let x: u8 = 9; x }",
        "u8",
        &[("4", "9")],
    ),
    ("fn f() {}", "()", &[("()", "()")]),
    (
        "fn f(x: u8) -> u8 { let x: u8 = jet::complement_8(x); x }",
        "u8",
        &[("4", "251")],
    ),
    (
        "fn f(x: u8) -> (u8, u8) { let y: u8 = { let x: u8 = 9; x }; (y, x) }",
        "u8",
        &[("4", "(9, 4)")],
    ),
];

/// Patterns, scopes and matches.
static MATCHES: [Row; 14] = [
    (
        "fn f(x: (u8, [u8; 2])) -> (u8, u8) { let (a, [_, b]): (u8, [u8; 2]) = x; (b, a) }",
        "(u8, [u8; 2])",
        &[("(1, [2, 3])", "(3, 1)")],
    ),
    (
        "fn f(x: Either<u8, u8>, y: u8) -> (u8, u8) { let a: u8 = match x { Left(y: u8) => y, Right(z: u8) => y, }; (a, y) }",
        "(Either<u8, u8>, u8)",
        &[("(Left(1), 2)", "(1, 2)"), ("(Right(1), 2)", "(2, 2)")],
    ),
    (
        "fn f(x: Either<u8, u8>) -> (bool, u8) { match x { Left(a: u8) => (false, a), Right(b: u8) => (true, b), } }",
        "Either<u8, u8>",
        &[("Left(7)", "(false, 7)"), ("Right(7)", "(true, 7)")],
    ),
    (
        "fn f(x: Either<u8, u8>) -> (bool, u8) { match x { Right(b: u8) => (true, b), Left(a: u8) => (false, a), } }",
        "Either<u8, u8>",
        &[("Left(7)", "(false, 7)"), ("Right(7)", "(true, 7)")],
    ),
    (
        "fn f(x: Option<(u8, u8)>) -> u8 { match x { None => 1, Some((_, a): (u8, u8)) => a, } }",
        "Option<(u8, u8)>",
        &[("None", "1"), ("Some((6, 7))", "7")],
    ),
    (
        "fn f(x: Option<u8>) -> u8 { match x { Some(a: u8) => a, None => 1, } }",
        "Option<u8>",
        &[("None", "1"), ("Some(7)", "7")],
    ),
    (
        "fn f(x: bool) -> u8 { match x { false => 10, true => 11, } }",
        "bool",
        &[("false", "10"), ("true", "11")],
    ),
    (
        "fn f(x: bool) -> u8 { match x { true => 11, false => 10, } }",
        "bool",
        &[("false", "10"), ("true", "11")],
    ),
    ("fn f(x: u8) -> (u8,) { (x,) }", "u8", &[("7", "(7,)")]),
    (
        "fn f(x: u8) -> [u8; 2] { [x, 9] }",
        "u8",
        &[("7", "[7, 9]")],
    ),
    (
        "fn f(x: u8) -> List<u8, 4> { list![x, 9] }",
        "u8",
        &[("7", "list![7, 9]")],
    ),
    (
        "fn f(x: bool) { assert!(x) }",
        "bool",
        &[("true", "()"), ("false", "failed")],
    ),
    ("fn f(x: u8) -> u8 { dbg!(x) }", "u8", &[("7", "7")]),
    ("fn f() -> u8 { panic!() }", "()", &[("()", "failed")]),
];

/// Forms of expressions.
static FORMS: [Row; 14] = [
    (
        "fn f(x: bool) { jet::verify(x); }",
        "bool",
        &[("true", "()"), ("false", "failed")],
    ),
    (
        "fn f(x: (u8, u8)) -> u16 { <(u8, u8)>::into(x) }",
        "(u8, u8)",
        &[("(1, 2)", "258")],
    ),
    (
        "fn f(x: u32) -> [u8; 4] { <u32>::into(x) }",
        "u32",
        &[("0x01020304", "[1, 2, 3, 4]")],
    ),
    (
        "fn f(x: Option<u8>) -> Either<(), u8> { <Option<u8>>::into(x) }",
        "Option<u8>",
        &[("None", "Left(())"), ("Some(5)", "Right(5)")],
    ),
    (
        "fn f(x: Option<u8>) -> u8 { unwrap(x) }",
        "Option<u8>",
        &[("Some(7)", "7"), ("None", "failed")],
    ),
    (
        "fn f(x: Either<u8, bool>) -> u8 { unwrap_left::<bool>(x) }",
        "Either<u8, bool>",
        &[("Left(7)", "7"), ("Right(true)", "failed")],
    ),
    (
        "fn f(x: Either<u8, bool>) -> bool { unwrap_right::<u8>(x) }",
        "Either<u8, bool>",
        &[("Left(7)", "failed"), ("Right(true)", "true")],
    ),
    (
        "fn f(x: Option<u8>) -> bool { is_none::<u8>(x) }",
        "Option<u8>",
        &[("None", "true"), ("Some(0)", "false")],
    ),
    (
        "fn f(x: u8) -> (Either<u8, bool>, Either<bool, u8>, Option<u8>, Option<u8>, bool, bool) { (Left(x), Right(x), Some(x), None, true, false) }",
        "u8",
        &[("7", "(Left(7), Right(7), Some(7), None, true, false)")],
    ),
    (
        "fn f() -> (u8, u16, u4) { (2_5, 0xF_f, 0b1_010) }",
        "()",
        &[("()", "(25, 255, 10)")],
    ),
    (
        "fn f() -> u256 { 0xab_cd }",
        "()",
        &[(
            "()",
            "0x000000000000000000000000000000000000000000000000000000000000abcd",
        )],
    ),
    (
        "fn g(y: u8, x: u8) -> (u8, u8) { (x, y) } fn f(x: u8, y: u8) -> (u8, u8) { g(x, y) }",
        "(u8, u8)",
        &[("(1, 2)", "(2, 1)")],
    ),
    (
        "fn g() -> u8 { 5 } fn f() -> u8 { g() }",
        "()",
        &[("()", "5")],
    ),
    (
        "type pair = (u8, u8); fn f(x: pair) -> u8 { let (a, _): pair = x; a }",
        "(u8, u8)",
        &[("(1, 2)", "1")],
    ),
];

/// Loops, and parts that fail beside such as do not.
static FAILURES: [Row; 14] = [
    (
        "fn step(x: u8, acc: u8) -> u8 { jet::xor_8(x, jet::left_shift_8(1, acc)) } fn f(l: [u8; 3]) -> u8 { array_fold::<step, 3>(l, 0) }",
        "[u8; 3]",
        &[("[5, 6, 7]", "31")],
    ),
    (
        "fn step(x: u8, acc: u8) -> u8 { x } fn f(l: [u8; 0]) -> u8 { array_fold::<step, 0>(l, 4) }",
        "[u8; 0]",
        &[("[]", "4")],
    ),
    (
        "fn g(acc: u8, c: u8, i: u4) -> Either<(), u8> { let (_, sum): (bool, u8) = jet::add_8(acc, c); Right(sum) } fn f(c: u8) -> Either<(), u8> { for_while::<g>(0, c) }",
        "u8",
        &[("3", "Right(48)")],
    ),
    (
        "fn g(acc: (), last: u8, i: u8) -> Either<u8, ()> { match jet::lt_8(i, last) { true => Right(()), false => match jet::eq_8(i, last) { true => Left(i), false => panic!(), }, } } fn f(last: u8) -> Either<u8, ()> { for_while::<g>((), last) }",
        "u8",
        &[("3", "Left(3)"), ("255", "Left(255)")],
    ),
    (
        "fn f(x: bool) -> u8 { match x { true => 1, false => panic!(), } }",
        "bool",
        &[("true", "1"), ("false", "failed")],
    ),
    (
        "fn f(x: Option<u8>) -> u8 { match x { None => { assert!(false); 2 } Some(a: u8) => a, } }",
        "Option<u8>",
        &[("None", "failed"), ("Some(7)", "7")],
    ),
    (
        "fn f() -> (u8, u8) { (1, panic!()) }",
        "()",
        &[("()", "failed")],
    ),
    (
        "fn f() -> u8 { let _: u8 = panic!(); 1 }",
        "()",
        &[("()", "failed")],
    ),
    ("fn f() { dbg!(panic!()); }", "()", &[("()", "failed")]),
    (
        "fn f() -> bool { is_none::<u8>(Some(panic!())) }",
        "()",
        &[("()", "failed")],
    ),
    (
        "fn g(x: u8) -> u8 { 1 } fn f() -> u8 { g(panic!()) }",
        "()",
        &[("()", "failed")],
    ),
    (
        "fn g() -> u8 { panic!() } fn f() -> u8 { 1 }",
        "()",
        &[("()", "1")],
    ),
    (
        "fn g(x: u8, acc: u8) -> u8 { panic!() } fn f(l: List<u8, 2>) -> u8 { fold::<g, 2>(l, 3) }",
        "List<u8, 2>",
        &[("list![]", "3"), ("list![1]", "failed")],
    ),
    (
        "fn g(x: u8, acc: u8) -> u8 { panic!() } fn f(l: [u8; 1]) -> u8 { array_fold::<g, 1>(l, 3) }",
        "[u8; 1]",
        &[("[1]", "failed")],
    ),
];

/// Loops of up to 65,536 turns.
static LOOPS: [Row; 2] = [
    (
        "fn stop(acc: u16, limit: u16, i: u16) -> Either<u16, u16> { match jet::eq_16(i, limit) { true => Left(i), false => Right(i), } } fn f(limit: u16) -> Either<u16, u16> { for_while::<stop>(0, limit) }",
        "u16",
        &[("3", "Left(3)"), ("65535", "Left(65535)")],
    ),
    (
        "fn go(acc: u16, c: (), i: u16) -> Either<(), u16> { Right(i) } fn f() -> Either<(), u16> { for_while::<go>(0, ()) }",
        "()",
        &[("()", "Right(65535)")],
    ),
];

/// The typed tree of a source, which breaks no rule.
fn checked(alloc: Global, text: &str, name: &str, params: &Entries) -> Result<TypedProgram, Fail>
    requires { AreValued params.now }
{
    let found = tokens(alloc, text)?;
    let program = parse(alloc, found.as_slice(), text.len() as u64)?;
    Ok(check(alloc, &program, name, params, 1, text.len() as u64)?)
}

/// The type that a text is, without aliases.
fn kind_of(alloc: Global, text: &str) -> Result<HlType, Fail>
    ensures { IfOk result IsSound }
{
    Ok(read_type(alloc, text)?)
}

/// The printed text of an answer, or why there is none.
fn shown(alloc: Global, answer: Result<HlValue, EvalFault>) -> Result<String, AllocError> {
    match answer {
        Ok(value) => print_value(alloc, &value),
        Err(EvalFault::Failed) => String::from_str(alloc, "failed"),
        Err(EvalFault::NoAnswer) => String::from_str(alloc, "NoAnswer"),
        Err(EvalFault::OutOfMemory) => String::from_str(alloc, "OutOfMemory"),
    }
}

/// No entries.
fn none(alloc: Global) -> Entries
    ensures { AreValued result }
{
    Entries::new(alloc)
}

/// What the function `f` of a source gives for an argument of a type.
fn given(alloc: Global, text: &str, kind: &str, argument: &str) -> Result<String, Fail> {
    let none = none(alloc);
    let program = checked(alloc, text, "f", &none)?;
    let argument = read_value(alloc, argument, &kind_of(alloc, kind)?)?;
    let answer = evaluate(alloc, program.functions().as_slice(), "f", &argument, &none);
    Ok(shown(alloc, answer)?)
}

/// The calls of rows that give something else than they should, each with what it gives.
fn wrong_calls(alloc: Global, rows: &[Row]) -> Result<String, Fail> {
    let mut wrong = String::new(alloc);
    for (text, kind, calls) in rows.iter() {
        for (argument, wanted) in calls.iter() {
            let got = given(alloc, text, kind, argument)?;
            if got.as_str() != *wanted {
                write!(wrong, "{got} at {argument} of {text}; ")?;
            }
        }
    }
    Ok(wrong)
}

#[test]
fn jets_and_folds(rt: HostRuntime) -> Result<(), Fail> {
    assert_eq!(rt; wrong_calls(rt.alloc(), &JETS)?.as_str(), "");
    Ok(())
}

#[test]
fn scopes_and_matches(rt: HostRuntime) -> Result<(), Fail> {
    assert_eq!(rt; wrong_calls(rt.alloc(), &MATCHES)?.as_str(), "");
    Ok(())
}

#[test]
fn forms_of_expressions(rt: HostRuntime) -> Result<(), Fail> {
    assert_eq!(rt; wrong_calls(rt.alloc(), &FORMS)?.as_str(), "");
    Ok(())
}

#[test]
fn failing_parts(rt: HostRuntime) -> Result<(), Fail> {
    assert_eq!(rt; wrong_calls(rt.alloc(), &FAILURES)?.as_str(), "");
    Ok(())
}

#[test]
fn loops_of_many_turns(rt: HostRuntime) -> Result<(), Fail> {
    assert_eq!(rt; wrong_calls(rt.alloc(), &LOOPS)?.as_str(), "");
    Ok(())
}

/// A contract: amounts are summed, and one of two paths asks something of the sum.
const POLICY: &str =
    "fn add_amount(amount: u64, sum: u64) -> u64 { let (carry, total): (bool, u64) = jet::add_64(amount, sum); match carry { true => panic!(), false => total, } } fn main() { let amounts: [u64; 3] = witness::AMOUNTS; let rate: u32 = param::RATE; let sum: u64 = array_fold::<add_amount, 3>(amounts, 0); let limit: u64 = jet::multiply_32(rate, 1000); match witness::PATH { Left(code: u32) => assert!(jet::eq_32(code, 0x2a2b2c2d)), Right(none: ()) => assert!(jet::lt_64(sum, limit)), } }";

/// An entry whose value is of its type.
fn entry(alloc: Global, name: &str, kind: &str, text: &str) -> Result<Entry, Fail>
    ensures { IfOk result IsValued }
{
    let kind = kind_of(alloc, kind)?;
    let value = read_value(alloc, text, &kind)?;
    let name = Text::from_str(alloc, name)?;
    Ok(Entry { name, kind, value })
}

/// The rate of the contract.
fn rate(alloc: Global) -> Result<Entries, Fail>
    ensures { IfOk result AreValued }
{
    let rate = entry(alloc, "RATE", "u32", "25")?;
    let mut params = Entries::new(alloc);
    params.push(rate)?;
    Ok(params)
}

/// What the contract gives on a path.
fn policy(alloc: Global, amounts: &str, path: &str) -> Result<String, Fail> {
    let params = rate(alloc)?;
    let mut witness = Entries::new(alloc);
    witness.push(entry(alloc, "AMOUNTS", "[u64; 3]", amounts)?)?;
    witness.push(entry(alloc, "PATH", "Either<u32, ()>", path)?)?;
    let program = checked(alloc, POLICY, "main", &params)?;
    let unit = read_value(alloc, "()", &kind_of(alloc, "()")?)?;
    let answer = evaluate(
        alloc,
        program.functions().as_slice(),
        "main",
        &unit,
        &witness,
    );
    Ok(shown(alloc, answer)?)
}

#[test]
fn policy_on_both_paths(rt: HostRuntime) -> Result<(), Fail> {
    for (amounts, path, wanted) in [
        ("[1000, 2000, 3000]", "Right(())", "()"),
        ("[1000, 2000, 3000]", "Left(0)", "failed"),
        ("[1000, 2000, 3000]", "Left(0x2a2b2c2d)", "()"),
        ("[9000, 8000, 8000]", "Right(())", "failed"),
        ("[18446744073709551615, 1, 0]", "Left(0x2a2b2c2d)", "failed"),
    ] {
        let got = policy(rt.alloc(), amounts, path)?;
        assert_eq!(rt; got.as_str(), wanted, "at {path}");
    }
    Ok(())
}
