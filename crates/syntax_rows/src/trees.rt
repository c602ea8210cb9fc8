//! Expressions, value texts and programs of rows: forms, spans and refusals.

use crate::refusals::{nested, write_refusal};
use hl_lex::tokens;
use hl_parse::{ParseRefusal, parse, parse_value};
use hl_syntax::{Arms, Expr, ExprForm, Item, Program, Statement, Statements};
use std::alloc::{AllocError, Global};
use std::test::Fail;

/// Texts of a body `fn f(){..}`, and what its statements and its last expression are.
static EXPRS: [(&str, &str); 51] = [
    ("None", "Nothing 7..11"),
    ("None(1)", "Call None of 1 7..14"),
    ("true(1, )", "Call true of 1 7..16"),
    ("false", "False 7..12"),
    ("fold", "Name fold 7..11"),
    ("unwrap", "Name unwrap 7..13"),
    ("Left", "Name Left 7..11"),
    ("list", "Name list 7..11"),
    ("jet", "Name jet 7..10"),
    ("(1)", "Literal 1 8..9"),
    ("(1,)", "Tuple of 1 7..11"),
    ("()", "Tuple of 0 7..9"),
    ("( ( x ), 2,)", "Tuple of 2 7..19"),
    ("[1, 2,]", "Array of 2 7..14"),
    ("list![]", "List of 0 7..14"),
    ("list![1,]", "List of 1 7..16"),
    (
        "match x { true => 1, false => 2 }",
        "Match 17..27 28..38 7..40",
    ),
    (
        "match x { true => {1} false => (2,), }",
        "Match 17..28 29..43 7..45",
    ),
    (
        "match x { Left(a: u8) => a, Right(_: ()) => {b} }",
        "Match 17..34 35..54 7..56",
    ),
    ("match x { None => 1 Some(b: u8) => b }", "Syntax 27..31"),
    ("match x { false => ({}) true => 1 }", "Syntax 31..35"),
    ("{ 1; 2 }", "Block of 1 7..15"),
    ("x; (y); {}", "Plain 7..8; Plain 11..12; Block of 0 15..17"),
    (
        "let (a, _): (u8, u8) = (1, 2); a",
        "Let 7..36; Name a 38..39",
    ),
    ("let a: u8 = 1;", "Let 7..20; nothing"),
    ("let a: u8 = 1", "Syntax 20..21"),
    ("f(1, 2,)", "Call f of 2 7..15"),
    ("assert!(true)", "Assert 7..20"),
    ("dbg!((x))", "Dbg 7..16"),
    ("panic!()", "Panic 7..15"),
    ("panic!(1)", "Syntax 14..15"),
    ("jet::add_8(1, 2,)", "Jet add_8 of 2 7..24"),
    ("witness::W", "Witness W 7..17"),
    ("param::P", "Param P 7..15"),
    ("<u8>::into(x)", "Into 7..20"),
    ("unwrap(x)", "Unwrap 7..16"),
    ("unwrap_left::<u8>(x)", "UnwrapLeft 7..27"),
    ("unwrap_right::<()>(x)", "UnwrapRight 7..28"),
    ("is_none::<u8>(x)", "IsNone 7..23"),
    ("fold::<f, 8>(a, b,)", "Fold f 8 7..26"),
    ("array_fold::<f, 0_2>(a, b)", "ArrayFold f 0_2 7..33"),
    ("for_while::<f>(a, b)", "ForWhile f 7..27"),
    ("fold::<f, 0x8>(a, b)", "Syntax 17..20"),
    ("fold::<f, 8>(a)", "Syntax 21..22"),
    ("Left(1)", "Left 7..14"),
    ("Right(1)", "Right 7..15"),
    ("Some(1)", "Some 7..14"),
    ("Some(1, )", "Syntax 13..14"),
    ("let", "Syntax 10..11"),
    ("1 2", "Syntax 9..10"),
    ("x =", "Syntax 9..10"),
];

/// Texts, and what they are as value texts.
static VALUES: [(&str, &str); 16] = [
    ("0x1f", "Literal 0x1f 0..4"),
    ("true", "True 0..4"),
    ("None", "Nothing 0..4"),
    ("(1, false,)", "Tuple of 2 0..11"),
    ("[1,]", "Array of 1 0..4"),
    ("list![Some(1)]", "List of 1 0..14"),
    ("Left(())", "Left 0..8"),
    ("Right(1)", "Right 0..8"),
    ("Some(None)", "Some 0..10"),
    ("(1)", "Literal 1 1..2"),
    ("x", "Syntax 0..1"),
    ("f(1)", "Syntax 0..1"),
    ("{1}", "Syntax 0..1"),
    ("1 1", "Syntax 2..3"),
    ("Some(x)", "Syntax 5..6"),
    ("", "Syntax 0..0"),
];

/// Texts, and what they are as programs.
static ITEMS: [(&str, &str); 9] = [
    ("", ""),
    ("type a = u8;", "Alias 0..12"),
    (
        "type a = (u8, ); fn f(x: a, y: u8,) -> a {x}",
        "Alias 0..16; Function 17..44 of 2 with a result, body 41..44",
    ),
    (
        "fn f(){} fn g(){}",
        "Function 0..8 of 0, body 6..8; Function 9..17 of 0, body 15..17",
    ),
    ("fn f(", "Syntax 5..5"),
    ("fn f() 1", "Syntax 7..8"),
    ("type a = u8", "Syntax 11..11"),
    ("fn match(){}", "Syntax 3..8"),
    ("x", "Syntax 0..1"),
];

fn form_name(form: &ExprForm) -> &'static str {
    match form {
        ExprForm::Block(..) => "Block",
        ExprForm::Match(..) => "Match",
        ExprForm::Tuple(_) => "Tuple",
        ExprForm::Array(_) => "Array",
        ExprForm::List(_) => "List",
        ExprForm::Assert(_) => "Assert",
        ExprForm::Dbg(_) => "Dbg",
        ExprForm::Panic => "Panic",
        ExprForm::Jet(..) => "Jet",
        ExprForm::Witness(_) => "Witness",
        ExprForm::Param(_) => "Param",
        ExprForm::Into(..) => "Into",
        ExprForm::Unwrap(_) => "Unwrap",
        ExprForm::UnwrapLeft(..) => "UnwrapLeft",
        ExprForm::UnwrapRight(..) => "UnwrapRight",
        ExprForm::IsNone(..) => "IsNone",
        ExprForm::Fold(..) => "Fold",
        ExprForm::ArrayFold(..) => "ArrayFold",
        ExprForm::ForWhile(..) => "ForWhile",
        ExprForm::Left(_) => "Left",
        ExprForm::Right(_) => "Right",
        ExprForm::Some(_) => "Some",
        ExprForm::Nothing => "Nothing",
        ExprForm::True => "True",
        ExprForm::False => "False",
        ExprForm::Literal(_) => "Literal",
        ExprForm::Call(..) => "Call",
        ExprForm::Name(_) => "Name",
    }
}

fn write_arms(text: &mut String, arms: &Arms) -> Result<(), AllocError> {
    for arm in arms.as_slice() {
        write!(text, " {}..{}", arm.span.start, arm.span.end)?;
    }
    Ok(())
}

fn write_detail(text: &mut String, form: &ExprForm) -> Result<(), AllocError> {
    match form {
        ExprForm::Block(parts, _) => write!(text, " of {}", parts.len()),
        ExprForm::Match(_, arms) => write_arms(text, arms),
        ExprForm::Tuple(parts) | ExprForm::Array(parts) | ExprForm::List(parts) => {
            write!(text, " of {}", parts.len())
        }
        ExprForm::Jet(name, parts) | ExprForm::Call(name, parts) => {
            write!(text, " {} of {}", name.text.as_str(), parts.len())
        }
        ExprForm::Witness(name) | ExprForm::Param(name) | ExprForm::ForWhile(name, ..) => {
            write!(text, " {}", name.text.as_str())
        }
        ExprForm::Fold(name, count, ..) | ExprForm::ArrayFold(name, count, ..) => {
            write!(text, " {} {}", name.text.as_str(), count.text.as_str())
        }
        ExprForm::Literal(word) | ExprForm::Name(word) => write!(text, " {}", word.as_str()),
        _ => Ok(()),
    }
}

fn write_expr(text: &mut String, expr: &Expr) -> Result<(), AllocError> {
    text.push_str(form_name(&expr.form))?;
    write_detail(text, &expr.form)?;
    write!(text, " {}..{}", expr.span.start, expr.span.end)
}

fn write_statements(text: &mut String, statements: &Statements) -> Result<(), AllocError> {
    for statement in statements.as_slice() {
        match statement {
            Statement::Let { span, .. } => write!(text, "Let {}..{}; ", span.start, span.end)?,
            Statement::Plain(expr) => {
                write!(text, "Plain {}..{}; ", expr.span.start, expr.span.end)?
            }
        }
    }
    Ok(())
}

fn write_body(text: &mut String, body: &Expr) -> Result<(), AllocError> {
    match &body.form {
        ExprForm::Block(statements, last) => {
            write_statements(text, statements)?;
            match last {
                Some(expr) => write_expr(text, expr.get()),
                None => text.push_str("nothing"),
            }
        }
        _ => text.push_str("no block"),
    }
}

/// The body of the first item.
fn write_first_body(text: &mut String, program: &Program) -> Result<(), AllocError> {
    match program.as_slice().first() {
        Some(Item::Function { body, .. }) => write_body(text, body),
        _ => text.push_str("no function"),
    }
}

fn write_item(text: &mut String, item: &Item) -> Result<(), AllocError> {
    match item {
        Item::Alias { span, .. } => write!(text, "Alias {}..{}", span.start, span.end),
        Item::Function {
            params,
            result: kind,
            body,
            span,
            ..
        } => {
            write!(
                text,
                "Function {}..{} of {}",
                span.start,
                span.end,
                params.len()
            )?;
            if kind.is_some() {
                text.push_str(" with a result")?;
            }
            write!(text, ", body {}..{}", body.span.start, body.span.end)
        }
    }
}

fn write_items(text: &mut String, program: &Program) -> Result<(), AllocError> {
    for (place, item) in program.as_slice().iter().enumerate() {
        if place > 0 {
            text.push_str("; ")?;
        }
        write_item(text, item)?;
    }
    Ok(())
}

fn shown_body(alloc: Global, expr: &str) -> Result<String, AllocError> {
    let source = format!(in alloc; "fn f(){{{expr}}}")?;
    let mut shown = String::new(alloc);
    match tokens(alloc, source.as_str()) {
        Ok(list) => match parse(alloc, list.as_slice(), source.len() as u64) {
            Ok(tree) => write_first_body(&mut shown, &tree)?,
            Err(refusal) => write_refusal(&mut shown, refusal)?,
        },
        Err(_) => shown.push_str("no tokens")?,
    }
    Ok(shown)
}

fn shown_items(alloc: Global, text: &str) -> Result<String, AllocError> {
    let mut shown = String::new(alloc);
    match tokens(alloc, text) {
        Ok(list) => match parse(alloc, list.as_slice(), text.len() as u64) {
            Ok(tree) => write_items(&mut shown, &tree)?,
            Err(refusal) => write_refusal(&mut shown, refusal)?,
        },
        Err(_) => shown.push_str("no tokens")?,
    }
    Ok(shown)
}

fn write_tree(text: &mut String, tree: Expr) -> Result<(), AllocError> {
    write_expr(text, &tree)
}

fn write_value(text: &mut String, answer: Result<Expr, ParseRefusal>) -> Result<(), AllocError> {
    match answer {
        Ok(tree) => write_tree(text, tree),
        Err(refusal) => write_refusal(text, refusal),
    }
}

fn shown_value(alloc: Global, text: &str) -> Result<String, AllocError> {
    let mut shown = String::new(alloc);
    match tokens(alloc, text) {
        Ok(list) => write_value(
            &mut shown,
            parse_value(alloc, list.as_slice(), text.len() as u64),
        )?,
        Err(_) => shown.push_str("no tokens")?,
    }
    Ok(shown)
}

#[test]
fn bodies_of_rows(rt: HostRuntime) -> Result<(), Fail> {
    for (text, wanted) in EXPRS.iter() {
        let got = shown_body(rt.alloc(), text)?;
        assert_eq!(rt; got.as_str(), *wanted, "at {text}");
    }
    Ok(())
}

#[test]
fn values_of_rows(rt: HostRuntime) -> Result<(), Fail> {
    for (text, wanted) in VALUES.iter() {
        let got = shown_value(rt.alloc(), text)?;
        assert_eq!(rt; got.as_str(), *wanted, "at {text}");
    }
    Ok(())
}

#[test]
fn items_of_rows(rt: HostRuntime) -> Result<(), Fail> {
    for (text, wanted) in ITEMS.iter() {
        let got = shown_items(rt.alloc(), text)?;
        assert_eq!(rt; got.as_str(), *wanted, "at {text}");
    }
    Ok(())
}

#[test]
fn expressions_as_deep_as_may_be(rt: HostRuntime) -> Result<(), Fail> {
    let deep = nested(rt.alloc(), "1", 126)?;
    let got = shown_body(rt.alloc(), deep.as_str())?;
    assert_eq!(rt; got.as_str(), "Literal 1 133..134", "126 pairs");
    let deeper = nested(rt.alloc(), "1", 127)?;
    let got = shown_body(rt.alloc(), deeper.as_str())?;
    assert_eq!(rt; got.as_str(), "TooDeep 134..135", "127 pairs");
    Ok(())
}
