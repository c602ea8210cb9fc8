//! Small sources, and what is none.

use small_source::{Body, Name, SmallFunction, SmallRefusal, one_function, read_small};
use std::alloc::{AllocError, Global};
use std::fmt::Write;
use std::test::Fail;

// Each text, the asked name, and its parameters and body with the place of each name; nothing where
// it isn't small.
static ROWS: [(&str, &str, &str); 36] = [
    ("fn id(x: u8) -> u8 { x }", "id", "x -> x@21"),
    (
        "fn second(x: u8, y: u8) -> u8 { y }",
        "second",
        "x, y -> y@32",
    ),
    (
        "fn swap(x: u8, y: u8) -> (u8, u8) { (y, x) }",
        "swap",
        "x, y -> (y@37, x@40)",
    ),
    (
        "fn twice(x: u8) -> (u8, u8) { (x, x) }",
        "twice",
        "x -> (x@31, x@34)",
    ),
    ("fn f(x: u8) -> u8 { y }", "f", "x -> y@20"),
    (
        "\t fn\r\n id(\n_x1\t:\ru8)->(u8,(u8,u8)){(_x1,(z,_x1))}\n",
        "id",
        "_x1 -> (_x1@36, (z@41, _x1@43))",
    ),
    ("fn true(x: u8) -> u8 { x }", "true", "x -> x@23"),
    (
        "fn deep(a: u8, b: u8, c: u8, d: u8, e: u8, f: u8, g: u8, h: u8) -> ((((((((u8, u8), u8), u8), u8), u8), u8), u8), u8) { ((((((((a, b), c), d), e), f), g), h), a) }",
        "deep",
        "a, b, c, d, e, f, g, h -> ((((((((a@128, b@131), c@135), d@139), e@143), f@147), g@151), h@155), a@159)",
    ),
    (
        "fn wide(a: u8, b: u8, c: u8, d: u8, e: u8, f: u8, g: u8, h: u8, i: u8) -> u8 { a }",
        "wide",
        "",
    ),
    (
        "fn deep(a: u8) -> (((((((((u8, u8), u8), u8), u8), u8), u8), u8), u8), u8) { (((((((((a, a), a), a), a), a), a), a), a), a) }",
        "deep",
        "",
    ),
    ("fn main(x: u8) -> u8 { x }", "main", ""),
    ("fn id(x: u8) -> u8 { x }", "other", ""),
    ("fn fold(x: u8) -> u8 { x }", "fold", ""),
    ("fn id() -> u8 { x }", "id", ""),
    ("fn id(x: u8) -> u8 { x /* x */ }", "id", ""),
    ("fn id(x: u8) -> u8 { x } // x", "id", ""),
    ("fn id(x: u8,) -> u8 { x }", "id", ""),
    ("fn f(x: u8) -> (u8, u8,) { (x, x) }", "f", ""),
    ("fn f(x: u8) -> (u8, u8) { (x, x,) }", "f", ""),
    ("fn f(x: u8) -> (u8) { (x) }", "f", ""),
    ("fnf(x: u8) -> u8 { x }", "f", ""),
    ("fn f(x: u8) - > u8 { x }", "f", ""),
    ("fn f(x: u16) -> u8 { x }", "f", ""),
    ("fn f(x: u8 y: u8) -> u8 { x }", "f", ""),
    ("fn f(true: u8) -> u8 { x }", "f", ""),
    ("fn f(x: u8) -> u8 { None }", "f", ""),
    ("fn f(let: u8) -> u8 { x }", "f", ""),
    ("fn f(_: u8) -> u8 { x }", "f", ""),
    ("fn f(1x: u8) -> u8 { x }", "f", ""),
    ("fn f(x: u8, x: u8) -> u8 { x }", "f", ""),
    ("fn f(x: u8) -> (u8, u8) { x }", "f", ""),
    ("fn f(x: u8) -> u8 { (x, x) }", "f", ""),
    ("fn f(x: u8) -> u8 { x } x", "f", ""),
    ("fn f(x: u8) -> u8 { x", "f", ""),
    ("fn f(x: u8) -> u8 { x\x0c}", "f", ""),
    ("", "f", ""),
];

fn write_name(text: &mut String, name: &Name) -> Result<(), AllocError> {
    for byte in name.as_bytes() {
        text.push(char::from(*byte))?;
    }
    Ok(())
}

fn write_body(text: &mut String, body: &Body) -> Result<(), AllocError> {
    match body {
        Body::Named(name, place) => {
            write_name(text, name)?;
            write!(text, "@{place}")?;
        }
        Body::Paired(first, second) => {
            text.push('(')?;
            write_body(text, first)?;
            text.push_str(", ")?;
            write_body(text, second)?;
            text.push(')')?;
        }
    }
    Ok(())
}

fn written(alloc: Global, function: &SmallFunction) -> Result<String, AllocError> {
    let mut text = String::new(alloc);
    for (index, name) in function.parameters.iter().enumerate() {
        if index > 0 {
            text.push_str(", ")?;
        }
        write_name(&mut text, name)?;
    }
    text.push_str(" -> ")?;
    write_body(&mut text, &function.body)?;
    Ok(text)
}

#[test]
fn reads_small_sources_alone(rt: HostRuntime) -> Result<(), Fail> {
    one_function();
    for (text, asked, wanted) in ROWS.iter() {
        match read_small(rt.alloc(), text.as_bytes(), asked.as_bytes()) {
            Ok(function) => {
                let got = written(rt.alloc(), &function)?;
                assert_eq!(rt; got.as_str(), *wanted, "at {text}");
            }
            Err(refusal) => {
                assert_eq!(rt; refusal, SmallRefusal::NotSmall, "at {text}");
                assert_eq!(rt; *wanted, "", "at {text}");
            }
        }
    }
    Ok(())
}
