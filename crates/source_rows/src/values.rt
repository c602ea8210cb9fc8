//! Value texts and their values.

ghost use Rattle.std.specs.Prelude.{IfOk};
ghost use Rattle.hl_meaning.specs.Entries.{IsValueOf};
ghost use Rattle.simplicityhl.specs.Kinds.{IsSound};

use hl_lex::tokens;
use hl_parse::parse_type;
use hl_syntax::Aliases;
use hl_types::{HlType, resolve};
use hl_values::{HlValue, ValueRefusal, from_core, print_value, read_value, to_core};
use std::alloc::{AllocError, Global};
use std::test::Fail;

/// Types, texts, and what the values of the types are printed as; `NotValue` where a text is none.
static ROWS: [(&str, &str, &str); 40] = [
    ("bool", "true", "true"),
    ("u8", "2_5_5", "255"),
    ("u8", "256", "NotValue"),
    ("u16", "0xF_f", "255"),
    ("u4", "0b1_111", "15"),
    ("u1", "2", "NotValue"),
    (
        "u128",
        "340282366920938463463374607431768211455",
        "340282366920938463463374607431768211455",
    ),
    (
        "u128",
        "340282366920938463463374607431768211456",
        "NotValue",
    ),
    (
        "u256",
        "0xFFFFFFFFFFFFFFFFFFFFFFFFFFFFFFFFFFFFFFFFFFFFFFFFFFFFFFFFFFFFFFFF",
        "0xffffffffffffffffffffffffffffffffffffffffffffffffffffffffffffffff",
    ),
    (
        "u256",
        "0x1_0000000000000000000000000000000000000000000000000000000000000000",
        "NotValue",
    ),
    (
        "u256",
        "43981",
        "0x000000000000000000000000000000000000000000000000000000000000abcd",
    ),
    ("()", "()", "()"),
    ("(u8,)", "(7,)", "(7,)"),
    ("(u8,)", "(7)", "NotValue"),
    ("(u8, bool)", "( 1 , false , )", "(1, false)"),
    ("(u8, bool)", "(1,)", "NotValue"),
    ("u8", "((3))", "3"),
    ("[u8; 0]", "[]", "[]"),
    ("[u8; 3]", "[1, 2, 3]", "[1, 2, 3]"),
    ("[u8; 3]", "[1, 2]", "NotValue"),
    ("[u8; 3]", "(1, 2, 3)", "NotValue"),
    ("List<u8, 4>", "list![]", "list![]"),
    ("List<u8, 4>", "list![5]", "list![5]"),
    ("List<u8, 4>", "list![5, 6, 7]", "list![5, 6, 7]"),
    ("List<u8, 4>", "list![5, 6, 7, 8]", "NotValue"),
    (
        "List<u8, 8>",
        "list![1, 2, 3, 4, 5]",
        "list![1, 2, 3, 4, 5]",
    ),
    ("Option<u8>", "None", "None"),
    ("Option<u8>", "Some(9)", "Some(9)"),
    ("Option<u8>", "9", "NotValue"),
    ("Either<u8, bool>", "Left(9)", "Left(9)"),
    ("Either<u8, bool>", "Right(true)", "Right(true)"),
    ("Either<u8, bool>", "Left(true)", "NotValue"),
    ("Option<Option<()>>", "Some(None)", "Some(None)"),
    ("u8", "x", "NotValue"),
    ("u8", "7 7", "NotValue"),
    ("u8", "", "NotValue"),
    ("u8", "#", "NotValue"),
    ("u8", "/* 7 */ 7", "7"),
    ("u8", "jet::low_8()", "NotValue"),
    ("bool", "1", "NotValue"),
];

/// The type that a text is, without aliases.
fn kind_of(alloc: Global, text: &str) -> Result<HlType, Fail>
    ensures { IfOk result IsSound }
{
    let found = tokens(alloc, text)?;
    let tree = parse_type(alloc, found.as_slice(), text.len() as u64)?;
    Ok(resolve(alloc, &tree, &Aliases::new(alloc))?)
}

/// The printed text of a value that is encoded and decoded before.
fn shown(alloc: Global, value: &HlValue, kind: &HlType) -> Result<String, AllocError>
    requires sound { IsSound kind.now }
    requires of_kind { IsValueOf value.now kind.now }
{
    let core = to_core(alloc, value, kind)?;
    let again = from_core(alloc, &core, kind)?;
    Ok(print_value(alloc, &again)?)
}

/// What a text is printed as, once it is read at a type.
fn read(alloc: Global, text: &str, kind: &HlType) -> Result<String, AllocError>
    requires { IsSound kind.now }
{
    match read_value(alloc, text, kind) {
        Ok(value) => Ok(shown(alloc, &value, kind)?),
        Err(ValueRefusal::NotValue) => Ok(String::from_str(alloc, "NotValue")?),
        Err(ValueRefusal::OutOfMemory) => Ok(String::from_str(alloc, "OutOfMemory")?),
    }
}

#[test]
fn values_of_rows(rt: HostRuntime) -> Result<(), Fail> {
    for (kind, text, wanted) in ROWS.iter() {
        let kind = kind_of(rt.alloc(), kind)?;
        let got = read(rt.alloc(), text, &kind)?;
        assert_eq!(rt; got.as_str(), *wanted, "at {text}");
    }
    Ok(())
}

#[test]
fn values_are_nested_128_deep(rt: HostRuntime) -> Result<(), Fail> {
    let opened = "Option<".repeat(rt.alloc(), 127)?;
    let closed = ">".repeat(rt.alloc(), 127)?;
    let kind_text = format!(in rt.alloc(); "{}bool{}", opened.as_str(), closed.as_str())?;
    let kind = kind_of(rt.alloc(), kind_text.as_str())?;
    let before = "Some(".repeat(rt.alloc(), 127)?;
    let after = ")".repeat(rt.alloc(), 127)?;
    let text = format!(in rt.alloc(); "{}true{}", before.as_str(), after.as_str())?;
    let got = read(rt.alloc(), text.as_str(), &kind)?;
    assert_eq!(rt; got.as_str(), text.as_str());
    let deeper = format!(in rt.alloc(); "{}(true){}", before.as_str(), after.as_str())?;
    let refused = read(rt.alloc(), deeper.as_str(), &kind)?;
    assert_eq!(rt; refused.as_str(), "NotValue");
    Ok(())
}
