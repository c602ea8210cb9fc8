//! Trees that are made and matched.

use hl_syntax::{
    Expr, ExprForm, Exprs, Mark, Pattern, PatternForm, Patterns, Span, TypeForm, TypeText,
};
use lists::{Boxed, Text};
use std::alloc::{AllocError, Global};
use std::test::Fail;

const NOWHERE: Span = Span { start: 0, end: 0 };

/// `[item; length]`
fn array_type(alloc: Global, item: TypeText, length: Mark) -> Result<TypeText, AllocError> {
    Ok(TypeText {
        form: TypeForm::Array(Boxed::new(alloc, item)?, length),
        span: NOWHERE,
    })
}

/// `(part)`, a tuple of one.
fn tuple_pattern(alloc: Global, part: Pattern) -> Result<Pattern, AllocError> {
    let mut parts = Patterns::new(alloc);
    parts.push(part)?;
    Ok(Pattern {
        form: PatternForm::Tuple(parts),
        span: NOWHERE,
    })
}

/// `(part,)`, a tuple of one.
fn tuple(alloc: Global, part: Expr) -> Result<Expr, AllocError> {
    let mut parts = Exprs::new(alloc);
    parts.push(part)?;
    Ok(expr(ExprForm::Tuple(parts)))
}

/// `assert!(condition)`
fn assertion(alloc: Global, condition: Expr) -> Result<Expr, AllocError> {
    Ok(expr(ExprForm::Assert(Boxed::new(alloc, condition)?)))
}

fn text_of_type(kind: &TypeText) -> Option<&Text> {
    match &kind.form {
        TypeForm::Array(_, length) => Some(&length.text),
        TypeForm::Name(name) => Some(name),
        _ => None,
    }
}

fn text_of_pattern(pattern: &Pattern) -> Option<&Text> {
    match &pattern.form {
        PatternForm::Name(name) => Some(name),
        PatternForm::Tuple(parts) => match parts.as_slice() {
            [part] => text_of_name(part),
            _ => None,
        },
        _ => None,
    }
}

fn text_of_name(pattern: &Pattern) -> Option<&Text> {
    match &pattern.form {
        PatternForm::Name(name) => Some(name),
        _ => None,
    }
}

/// Whether an expression is a tuple of `assert!(true)` alone.
fn asserts_true(whole: &Expr) -> bool {
    match &whole.form {
        ExprForm::Tuple(parts) => match parts.as_slice() {
            [part] => is_true_asserted(part),
            _ => false,
        },
        _ => false,
    }
}

fn is_true_asserted(part: &Expr) -> bool {
    match &part.form {
        ExprForm::Assert(condition) => matches!(condition.get().form, ExprForm::True),
        _ => false,
    }
}

fn expr(form: ExprForm) -> Expr {
    Expr {
        form,
        span: NOWHERE,
    }
}

fn type_named(alloc: Global, name: &str) -> Result<TypeText, AllocError> {
    Ok(TypeText {
        form: TypeForm::Name(Text::from_str(alloc, name)?),
        span: NOWHERE,
    })
}

fn pattern_named(alloc: Global, name: &str) -> Result<Pattern, AllocError> {
    Ok(Pattern {
        form: PatternForm::Name(Text::from_str(alloc, name)?),
        span: NOWHERE,
    })
}

fn mark(alloc: Global, text: &str) -> Result<Mark, AllocError> {
    Ok(Mark {
        text: Text::from_str(alloc, text)?,
        span: NOWHERE,
    })
}

#[test]
fn types_and_patterns_are_made_and_matched(rt: HostRuntime) -> Result<(), Fail> {
    let pattern = tuple_pattern(rt.alloc(), pattern_named(rt.alloc(), "a")?)?;
    assert_eq!(rt;
        text_of_pattern(&pattern).map(|text| text.as_str()),
        Some("a")
    );
    let kind = array_type(
        rt.alloc(),
        type_named(rt.alloc(), "u8")?,
        mark(rt.alloc(), "2")?,
    )?;
    assert_eq!(rt; text_of_type(&kind).map(|text| text.as_str()), Some("2"));
    Ok(())
}

#[test]
fn expressions_are_made_and_matched(rt: HostRuntime) -> Result<(), Fail> {
    let part = assertion(rt.alloc(), expr(ExprForm::True))?;
    let whole = tuple(rt.alloc(), part)?;
    assert!(rt; asserts_true(&whole));
    Ok(())
}
