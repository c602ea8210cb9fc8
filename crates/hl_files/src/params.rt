//! The names of the `param::` that a program reads, in their order.

ghost use Rattle.std.specs.Prelude.{◌≡◌, bytes_eq, map, IfOk, OnOk};
ghost use Rattle.std.specs.List.{list_any};
ghost use Rattle.hl_files.specs.Params.{all_of, in_arm, in_expr, in_form, in_statement, param_names, with_name, with_names};

use hl_data::Names;
use hl_syntax::{Arm, Arms, Expr, ExprForm, Exprs, Item, Program, Statement, Statements};
use lists::Text;
use std::alloc::{AllocError, Global};

/// Whether a name is among names.
fn has_name(names: &[Text], name: &str) -> bool
    ensures { result ≡ list_any (bytes_eq name.now) names.now }
{
    names.iter().any(|known| name == known.as_str())
}

/// Puts a name at the end of names, unless it is among them.
fn add(names: &mut Names, name: &Text) -> Result<(), AllocError>
    ensures { OnOk result (names.new ≡ with_name names.old name.now) }
{
    if has_name(names.as_slice(), name.as_str()) {
        return Ok(());
    }
    names.push(name.clone()?)
}

/// Adds the parameters in expressions.
#[cycle(gather)]
fn from_exprs(names: &mut Names, parts: &Exprs) -> Result<(), AllocError>
    ensures { OnOk result (names.new ≡ with_names names.old (all_of (map in_expr parts.now))) }
{
    'parts: for part in parts.as_slice() {
        from_expr(names, part)?;
    }
    Ok(())
}

/// Adds the parameters in a statement.
#[cycle(gather)]
fn from_statement(names: &mut Names, statement: &Statement) -> Result<(), AllocError>
    ensures { OnOk result (names.new ≡ with_names names.old (in_statement statement.now)) }
{
    match statement {
        Statement::Let { value, .. } => from_expr(names, value),
        Statement::Plain(e) => from_expr(names, e),
    }
}

/// Adds the parameters in statements.
#[cycle(gather)]
fn from_statements(names: &mut Names, statements: &Statements) -> Result<(), AllocError>
    ensures { OnOk result (names.new ≡ with_names names.old (all_of (map in_statement statements.now))) }
{
    'statements: for statement in statements.as_slice() {
        from_statement(names, statement)?;
    }
    Ok(())
}

/// Adds the parameters in the arms of a match.
#[cycle(gather)]
fn from_arms(names: &mut Names, arms: &Arms) -> Result<(), AllocError>
    ensures { OnOk result (names.new ≡ with_names names.old (all_of (map in_arm arms.now))) }
{
    'arms: for arm in arms.as_slice() {
        from_expr(names, &arm.body)?;
    }
    Ok(())
}

/// Adds the parameters in an expression.
#[cycle(gather)]
fn from_expr(names: &mut Names, e: &Expr) -> Result<(), AllocError>
    ensures { OnOk result (names.new ≡ with_names names.old (in_expr e.now)) }
{
    from_form(names, &e.form)
}

/// Adds the parameters in the form of an expression, its parts from the left.
#[cycle(gather)]
fn from_form(names: &mut Names, form: &ExprForm) -> Result<(), AllocError>
    ensures { OnOk result (names.new ≡ with_names names.old (in_form form.now)) }
{
    match form {
        ExprForm::Param(name) => add(names, &name.text),
        ExprForm::Block(statements, last) => {
            from_statements(names, statements)?;
            match last {
                Some(e) => from_expr(names, e.get()),
                None => Ok(()),
            }
        }
        ExprForm::Match(e, arms) => {
            from_expr(names, e.get())?;
            from_arms(names, arms)
        }
        ExprForm::Tuple(parts)
        | ExprForm::Array(parts)
        | ExprForm::List(parts)
        | ExprForm::Jet(_, parts)
        | ExprForm::Call(_, parts) => from_exprs(names, parts),
        ExprForm::Fold(_, _, first, second)
        | ExprForm::ArrayFold(_, _, first, second)
        | ExprForm::ForWhile(_, first, second) => {
            from_expr(names, first.get())?;
            from_expr(names, second.get())
        }
        ExprForm::Assert(e)
        | ExprForm::Dbg(e)
        | ExprForm::Into(_, e)
        | ExprForm::Unwrap(e)
        | ExprForm::UnwrapLeft(_, e)
        | ExprForm::UnwrapRight(_, e)
        | ExprForm::IsNone(_, e)
        | ExprForm::Left(e)
        | ExprForm::Right(e)
        | ExprForm::Some(e) => from_expr(names, e.get()),
        ExprForm::Panic
        | ExprForm::Witness(_)
        | ExprForm::Nothing
        | ExprForm::True
        | ExprForm::False
        | ExprForm::Literal(_)
        | ExprForm::Name(_) => Ok(()),
    }
}

/// The names of the parameters that stand in a program, in any of its functions, each once and in
/// the order in which they first stand.
pub fn param_names(alloc: Global, program: &Program) -> Result<Names, AllocError>
    ensures { IfOk result (λ names. names ≡ param_names program.now) }
{
    let mut names = Names::new(alloc);
    'items: for item in program.as_slice() {
        if let Item::Function { body, .. } = item {
            from_expr(&mut names, body)?;
        }
    }
    Ok(names)
}
