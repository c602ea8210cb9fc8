//! Core values: their types, and a value of a million levels that is shrunk and dropped.

ghost use Rattle.std.specs.Prelude.{IfOk};
ghost use Rattle.simplicity.specs.Types.{IsOf};
ghost use Rattle.core_data.specs.Data.{kind_of, value_of};

use core_data::{CoreType, CoreValue, CoreValues, has_type, shrink};
use std::alloc::{AllocError, Global};
use std::test::Fail;

#[test]
fn keeps_values(rt: HostRuntime) -> Result<(), Fail> {
    let mut values = CoreValues::new(rt.alloc());
    values.push(CoreValue::Unit)?;
    values.push(CoreValue::Right(Box::new(rt.alloc(), CoreValue::Unit)?))?;
    let one = Box::new(rt.alloc(), CoreType::One)?;
    let other = Box::new(rt.alloc(), CoreType::One)?;
    let bit = CoreType::Sum(one, other);
    assert_eq!(rt; values.len(), 2);
    assert!(rt; has_type(values.get(1), &bit));
    assert!(rt; !has_type(values.get(0), &bit));
    Ok(())
}

/// A value of so many tags on the left, and its type, with One on the right of each sum.
fn deep_left(alloc: Global, levels: usize) -> Result<(CoreValue, CoreType), AllocError>
    ensures { IfOk result (λ made. IsOf (value_of made.0) (kind_of made.1)) }
{
    let mut value = CoreValue::Unit;
    let mut kind = CoreType::One;
    'levels: for _ in 0..levels {
        let inner = Box::new(alloc, value)?;
        let left = Box::new(alloc, kind)?;
        let right = Box::new(alloc, CoreType::One)?;
        value = CoreValue::Left(inner);
        kind = CoreType::Sum(left, right);
    }
    Ok((value, kind))
}

/// How many tags on the left the value begins with.
fn count_lefts(value: &CoreValue) -> usize {
    let mut count = 0usize;
    let mut rest = value;
    while let CoreValue::Left(inner) = rest {
        count = count.saturating_add(1);
        rest = inner;
    }
    count
}

#[test]
#[tactic(auto, using(crate::proofs::OwnTypes::of_own))]
fn shrinks_and_drops_a_million_levels(rt: HostRuntime) -> Result<(), Fail> {
    let (value, kind) = deep_left(rt.alloc(), 1_000_000)?;
    let shrunk = shrink(rt.alloc(), &value, &kind)?;
    assert_eq!(rt; count_lefts(&shrunk), 1_000_000);
    Ok(())
}
