//! Typed trees that are made.

use hl_data::{TypedExpr, TypedForm, TypedFunction};
use hl_syntax::HlType;
use lists::{Boxed, Text};
use std::alloc::{AllocError, Global};
use std::test::Fail;

/// `name`, a bool.
fn variable(alloc: Global, name: &str) -> Result<TypedExpr, AllocError> {
    Ok(TypedExpr {
        kind: HlType::Bool,
        form: TypedForm::Name(Text::from_str(alloc, name)?),
    })
}

/// `fn name() -> bool { dbg!(x) }`
fn function(alloc: Global) -> Result<TypedFunction, AllocError> {
    let inner = variable(alloc, "x")?;
    let last = TypedExpr {
        kind: HlType::Bool,
        form: TypedForm::Dbg(Boxed::new(alloc, inner)?),
    };
    Ok(TypedFunction {
        name: Text::from_str(alloc, "name")?,
        params: hl_syntax::Wanted::new(alloc),
        result: HlType::Bool,
        body: last,
    })
}

#[test]
fn function_keeps_its_form(rt: HostRuntime) -> Result<(), Fail> {
    let made = function(rt.alloc())?;
    assert_eq!(rt; made.name.as_str(), "name");
    assert!(rt; matches!(made.body.form, TypedForm::Dbg(_)));
    Ok(())
}
