//! Functions and what they give.

use hl_data::{
    Entries, HlValue, HlValues, TypedArm, TypedArms, TypedExpr, TypedExprs, TypedForm,
    TypedFunction, TypedSide, TypedStatement, TypedStatements,
};
use hl_eval::{EvalFault, evaluate};
use hl_syntax::{HlType, HlTypes, Pattern, PatternForm, Span, TypedName, Wanted};
use lists::{Boxed, Text};
use std::alloc::{AllocError, Global};
use std::test::Fail;
use word_math::Word;

/// An expression; the evaluator reads no type of one but that of a literal and a conversion.
fn typed(form: TypedForm) -> TypedExpr {
    TypedExpr {
        kind: HlType::Bool,
        form,
    }
}

fn name(alloc: Global, text: &str) -> Result<TypedExpr, AllocError> {
    Ok(typed(TypedForm::Name(Text::from_str(alloc, text)?)))
}

fn param(alloc: Global, text: &str) -> Result<TypedName, AllocError> {
    Ok(TypedName {
        name: Text::from_str(alloc, text)?,
        kind: HlType::Bool,
    })
}

/// `{ let x: bool = false; (x, dbg!(y)) }`
fn shadowing(alloc: Global) -> Result<TypedExpr, AllocError> {
    let mut statements = TypedStatements::new(alloc);
    statements.push(TypedStatement::Let {
        pattern: Pattern {
            form: PatternForm::Name(Text::from_str(alloc, "x")?),
            span: Span { start: 0, end: 0 },
        },
        kind: HlType::Bool,
        value: typed(TypedForm::False),
    })?;
    let mut parts = TypedExprs::new(alloc);
    parts.push(name(alloc, "x")?)?;
    let inner = name(alloc, "y")?;
    parts.push(typed(TypedForm::Dbg(Boxed::new(alloc, inner)?)))?;
    let last = Boxed::new(alloc, typed(TypedForm::Tuple(parts)))?;
    Ok(typed(TypedForm::Block(statements, Some(last))))
}

/// `match x { true => BODY, false => panic!(), }`
fn choice(alloc: Global, body: TypedExpr) -> Result<TypedExpr, AllocError> {
    let mut arms = TypedArms::new(alloc);
    arms.push(TypedArm {
        side: TypedSide::True,
        body,
    })?;
    arms.push(TypedArm {
        side: TypedSide::False,
        body: typed(TypedForm::Panic),
    })?;
    let part = Boxed::new(alloc, name(alloc, "x")?)?;
    Ok(typed(TypedForm::Match(part, arms)))
}

/// `fn f(x: bool, y: bool) -> (bool, bool) { match x { true => { let x: bool = false; (x, dbg!(y)) }, false => panic!(), } }`
fn function(alloc: Global) -> Result<TypedFunction, AllocError> {
    let mut params = Wanted::new(alloc);
    params.push(param(alloc, "x")?)?;
    params.push(param(alloc, "y")?)?;
    let body = choice(alloc, shadowing(alloc)?)?;
    Ok(TypedFunction {
        name: Text::from_str(alloc, "f")?,
        params,
        result: HlType::Bool,
        body,
    })
}

fn pair(alloc: Global, first: bool, second: bool) -> Result<HlValue, AllocError> {
    let mut parts = HlValues::new(alloc);
    parts.push(HlValue::Bool(first))?;
    parts.push(HlValue::Bool(second))?;
    Ok(HlValue::Tuple(parts))
}

/// Whether a value is a pair of these truth values.
fn is_pair(value: &HlValue, first: bool, second: bool) -> bool {
    match value {
        HlValue::Tuple(parts) => match parts.as_slice() {
            [HlValue::Bool(a), HlValue::Bool(b)] => *a == first && *b == second,
            _ => false,
        },
        _ => false,
    }
}

#[test]
fn inner_binding_shadows_and_one_arm_is_evaluated(rt: HostRuntime) -> Result<(), Fail> {
    let alloc = rt.alloc();
    let functions = [function(alloc)?];
    let witness = Entries::new(alloc);
    let value = evaluate(alloc, &functions, "f", &pair(alloc, true, true)?, &witness)?;
    assert!(rt; is_pair(&value, false, true));
    let failed = evaluate(alloc, &functions, "f", &pair(alloc, false, true)?, &witness);
    assert!(rt; matches!(failed, Err(EvalFault::Failed)));
    let none = evaluate(alloc, &functions, "g", &pair(alloc, true, true)?, &witness);
    assert!(rt; matches!(none, Err(EvalFault::NoAnswer)));
    Ok(())
}

/// `fn f(x: u8, y: u8) -> (bool, u8) { jet::add_8(x, y) }`
fn sum(alloc: Global) -> Result<TypedFunction, AllocError> {
    let mut params = Wanted::new(alloc);
    params.push(param(alloc, "x")?)?;
    params.push(param(alloc, "y")?)?;
    let mut parts = TypedExprs::new(alloc);
    parts.push(name(alloc, "x")?)?;
    parts.push(name(alloc, "y")?)?;
    Ok(TypedFunction {
        name: Text::from_str(alloc, "f")?,
        params,
        result: HlType::Bool,
        body: typed(TypedForm::Jet(Text::from_str(alloc, "add_8")?, parts)),
    })
}

/// Whether a value is a carry and 0.
fn is_carry_and_zero(value: &HlValue) -> bool {
    match value {
        HlValue::Tuple(parts) => match parts.as_slice() {
            [HlValue::Bool(true), HlValue::Number(word)] => word.low() == 0 && word.width() == 8,
            _ => false,
        },
        _ => false,
    }
}

#[test]
fn jet_gives_carry_and_sum(rt: HostRuntime) -> Result<(), Fail> {
    let alloc = rt.alloc();
    let functions = [sum(alloc)?];
    let mut parts = HlValues::new(alloc);
    parts.push(HlValue::Number(Word::new(8, 0, 255).ok_or("wide")?))?;
    parts.push(HlValue::Number(Word::new(8, 0, 1).ok_or("wide")?))?;
    let witness = Entries::new(alloc);
    let value = evaluate(alloc, &functions, "f", &HlValue::Tuple(parts), &witness)?;
    assert!(rt; is_carry_and_zero(&value));
    Ok(())
}

/// `fn f(x: (u8, u8)) -> T { <(u8, u8)>::into(x) }`
fn conversion(alloc: Global, to: HlType) -> Result<TypedFunction, AllocError> {
    let mut params = Wanted::new(alloc);
    params.push(param(alloc, "x")?)?;
    let mut parts = HlTypes::new(alloc);
    parts.push(HlType::UInt(8))?;
    parts.push(HlType::UInt(8))?;
    let part = Boxed::new(alloc, name(alloc, "x")?)?;
    Ok(TypedFunction {
        name: Text::from_str(alloc, "f")?,
        params,
        result: HlType::Bool,
        body: TypedExpr {
            kind: to,
            form: TypedForm::Into(HlType::Tuple(parts), part),
        },
    })
}

fn pair_of_bytes(alloc: Global) -> Result<HlValue, Fail> {
    let mut parts = HlValues::new(alloc);
    parts.push(HlValue::Number(Word::new(8, 0, 1).ok_or("wide")?))?;
    parts.push(HlValue::Number(Word::new(8, 0, 2).ok_or("wide")?))?;
    Ok(HlValue::Tuple(parts))
}

/// What the pair of bytes 1 and 2 becomes at a type.
fn pair_at(alloc: Global, to: HlType) -> Result<Result<HlValue, EvalFault>, Fail> {
    let functions = [conversion(alloc, to)?];
    let pair = pair_of_bytes(alloc)?;
    let witness = Entries::new(alloc);
    Ok(evaluate(alloc, &functions, "f", &pair, &witness))
}

/// Whether a value is a number of 16 bits.
fn is_number(value: &HlValue, number: u128) -> bool {
    match value {
        HlValue::Number(word) => word.low() == number && word.width() == 16,
        _ => false,
    }
}

#[test]
fn pair_of_bytes_becomes_the_word_that_it_encodes(rt: HostRuntime) -> Result<(), Fail> {
    let value = pair_at(rt.alloc(), HlType::UInt(16))??;
    assert!(rt; is_number(&value, 258));
    Ok(())
}

#[test]
fn pair_of_bytes_becomes_no_longer_word(rt: HostRuntime) -> Result<(), Fail> {
    let none = pair_at(rt.alloc(), HlType::UInt(32))?;
    assert!(rt; matches!(none, Err(EvalFault::NoAnswer)));
    Ok(())
}
