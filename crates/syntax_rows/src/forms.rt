//! Forms, weights and refusals of written types.

ghost use Rattle.std.specs.Prelude.{◌<◌, length, IfOk};
ghost use Rattle.hl_types.specs.Walks.{AreSound};

use hl_syntax::{Limit, Mark, Rule, Span, TypeForm, TypeText, TypeTexts};
use hl_types::{Aliases, TypeRefusal, TypedName, resolve, structure};
use lists::{Boxed, Text};
use std::alloc::{AllocError, Global};
use std::test::Fail;
use type_table::{Shape, TypeId, TypeTable};

const ITEM: Span = Span { start: 1, end: 3 };

const NUMBER: Span = Span { start: 5, end: 9 };

const WHOLE: Span = Span { start: 0, end: 10 };

/// A form of written types, the name of the item's type, a number, and what the type is: its form
/// as a core type, where 2 is a bit, or its weight, or what it breaks.
static ROWS: [(&str, &str, &str, &str); 35] = [
    ("name", "bool", "", "2"),
    ("name", "u1", "", "2"),
    ("name", "u4", "", "((2*2)*(2*2))"),
    ("name", "u256", "", "weight 1023"),
    ("tuple", "bool", "0", "1"),
    ("tuple", "bool", "1", "2"),
    ("tuple", "bool", "2", "(2*2)"),
    ("tuple", "bool", "3", "(2*(2*2))"),
    ("tuple", "bool", "5", "((2*2)*(2*(2*2)))"),
    ("tuple", "bool", "6", "((2*(2*2))*(2*(2*2)))"),
    ("tuple", "bool", "7", "((2*(2*2))*((2*2)*(2*2)))"),
    ("tuple", "bool", "9", "(((2*2)*(2*2))*((2*2)*(2*(2*2))))"),
    ("array", "bool", "0", "1"),
    ("array", "bool", "1", "2"),
    ("array", "bool", "2", "(2*2)"),
    ("array", "bool", "3", "(2*(2*2))"),
    ("array", "bool", "5", "((2*2)*(2*(2*2)))"),
    ("array", "bool", "6", "((2*(2*2))*(2*(2*2)))"),
    ("array", "bool", "7", "((2*(2*2))*((2*2)*(2*2)))"),
    ("array", "bool", "9", "(((2*2)*(2*2))*((2*2)*(2*(2*2))))"),
    ("list", "bool", "2", "(1+2)"),
    ("list", "bool", "4", "((1+(2*2))*(1+2))"),
    ("list", "bool", "8", "((1+((2*2)*(2*2)))*((1+(2*2))*(1+2)))"),
    (
        "list",
        "bool",
        "1_6",
        "((1+(((2*2)*(2*2))*((2*2)*(2*2))))*((1+((2*2)*(2*2)))*((1+(2*2))*(1+2))))",
    ),
    ("option", "u2", "", "(1+(2*2))"),
    ("either", "u2", "", "((2*2)+2)"),
    ("array", "u8", "65536", "weight 2097151"),
    ("array", "u64", "65_536", "L5 0..10"),
    ("array", "u8", "65537", "L4 5..9"),
    ("list", "u8", "100000000000000000000000", "L4 5..9"),
    ("list", "u8", "3", "K10 5..9"),
    ("list", "u8", "1", "K10 5..9"),
    ("array", "u3", "65537", "K2 1..3"),
    ("either", "X", "", "((2*2)+2)"),
    ("name", "Y", "", "(2*2)"),
];

fn named(alloc: Global, name: &str) -> Result<TypeText, AllocError> {
    Ok(TypeText {
        form: TypeForm::Name(Text::from_str(alloc, name)?),
        span: ITEM,
    })
}

fn tuple(alloc: Global, item: &str, count: usize) -> Result<TypeForm, AllocError> {
    let mut parts = TypeTexts::new(alloc);
    for _ in 0..count {
        parts.push(named(alloc, item)?)?;
    }
    Ok(TypeForm::Tuple(parts))
}

fn mark(alloc: Global, number: &str) -> Result<Mark, AllocError> {
    Ok(Mark {
        text: Text::from_str(alloc, number)?,
        span: NUMBER,
    })
}

fn form_of(alloc: Global, form: &str, item: &str, number: &str) -> Result<TypeForm, AllocError> {
    if form == "tuple" {
        return tuple(alloc, item, number.parse::<usize>().unwrap_or(0));
    }
    if form == "name" {
        return Ok(TypeForm::Name(Text::from_str(alloc, item)?));
    }
    let one = Boxed::new(alloc, named(alloc, item)?)?;
    if form == "array" {
        return Ok(TypeForm::Array(one, mark(alloc, number)?));
    }
    if form == "list" {
        return Ok(TypeForm::List(one, mark(alloc, number)?));
    }
    if form == "option" {
        return Ok(TypeForm::Option(one));
    }
    Ok(TypeForm::Either(one, Boxed::new(alloc, named(alloc, "bool")?)?))
}

/// Writes a core type, where 2 is a bit.
fn write_kind(text: &mut String, types: &TypeTable, id: TypeId) -> Result<(), AllocError>
    requires { id < length types.now }
{
    match types.shape(id) {
        Shape::One => text.push_str("1")?,
        Shape::Sum(left, right) => {
            if types.size(id) == 1 && types.weight(id) == 3 {
                text.push_str("2")?;
            } else {
                text.push_str("(")?;
                write_kind(text, types, left)?;
                text.push_str("+")?;
                write_kind(text, types, right)?;
                text.push_str(")")?;
            }
        }
        Shape::Product(left, right) => {
            text.push_str("(")?;
            write_kind(text, types, left)?;
            text.push_str("*")?;
            write_kind(text, types, right)?;
            text.push_str(")")?;
        }
    }
    Ok(())
}

fn write_refusal(text: &mut String, refusal: TypeRefusal) -> Result<(), AllocError> {
    match refusal {
        TypeRefusal::Rule { rule, span } => {
            text.push_str(if rule == Rule::K2 { "K2" } else { "K10" })?;
            write!(text, " {}..{}", span.start, span.end)
        }
        TypeRefusal::Limit { limit, span } => {
            text.push_str(if limit == Limit::L4 { "L4" } else { "L5" })?;
            write!(text, " {}..{}", span.start, span.end)
        }
        TypeRefusal::OutOfMemory => text.push_str("OutOfMemory"),
    }
}

/// What a written type is.
fn shown(alloc: Global, text: &TypeText, aliases: &Aliases) -> Result<String, AllocError>
    requires { AreSound aliases.now }
{
    let mut shown = String::new(alloc);
    match resolve(alloc, text, aliases) {
        Ok(kind) => {
            let mut types = TypeTable::new(alloc);
            let id = structure(alloc, &kind, &mut types)?;
            if types.weight(id) < 100 {
                write_kind(&mut shown, &types, id)?;
            } else {
                write!(&mut shown, "weight {}", types.weight(id))?;
            }
        }
        Err(refusal) => write_refusal(&mut shown, refusal)?,
    }
    Ok(shown)
}

/// `type X = u2; type Y = X;`
fn aliases(alloc: Global) -> Result<Aliases, Fail>
    ensures { IfOk result AreSound }
{
    let mut aliases = Aliases::new(alloc);
    for (name, kind) in [("X", "u2"), ("Y", "X")] {
        let kind = resolve(alloc, &named(alloc, kind)?, &aliases)?;
        let name = Text::from_str(alloc, name)?;
        aliases.push(TypedName { name, kind })?;
    }
    Ok(aliases)
}

#[test]
fn types_of_rows(rt: HostRuntime) -> Result<(), Fail> {
    let aliases = aliases(rt.alloc())?;
    for (form, item, number, wanted) in ROWS.iter() {
        let text = TypeText {
            form: form_of(rt.alloc(), form, item, number)?,
            span: WHOLE,
        };
        let got = shown(rt.alloc(), &text, &aliases)?;
        assert_eq!(rt; got.as_str(), *wanted, "at {form} {item} {number}");
    }
    let unknown = named(rt.alloc(), "X")?;
    let got = shown(rt.alloc(), &unknown, &Aliases::new(rt.alloc()))?;
    assert_eq!(rt; got.as_str(), "K2 1..3", "before its alias");
    Ok(())
}
