//! Whether a program holds a call of a jet or a loop at any place, by a walk over its typed tree
//! that takes no memory. It goes as deep as the tree, which a checked program bounds.

ghost use Rattle.std.specs.Prelude.{◌≡◌, map};
ghost use Rattle.hl_constructs.specs.Held.{any_of, in_arm, in_expr, in_form, in_program, in_statement};

use hl_data::{TypedArms, TypedExpr, TypedExprs, TypedForm, TypedStatement, TypedStatements};
use hl_typed::TypedProgram;

/// In any of these expressions.
#[cycle(walk)]
fn search_exprs(parts: &TypedExprs) -> bool
    ensures { result ≡ any_of (map in_expr parts.now) }
{
    'parts: for part in parts.as_slice() {
        if search_expr(part) {
            return true;
        }
    }
    false
}

/// In a statement.
#[cycle(walk)]
fn search_statement(statement: &TypedStatement) -> bool
    ensures { result ≡ in_statement statement.now }
{
    match statement {
        TypedStatement::Let { value, .. } => search_expr(value),
        TypedStatement::Plain(e) => search_expr(e),
    }
}

/// In any of these statements.
#[cycle(walk)]
fn search_statements(statements: &TypedStatements) -> bool
    ensures { result ≡ any_of (map in_statement statements.now) }
{
    'statements: for statement in statements.as_slice() {
        if search_statement(statement) {
            return true;
        }
    }
    false
}

/// In any arm of a match.
#[cycle(walk)]
fn search_arms(arms: &TypedArms) -> bool
    ensures { result ≡ any_of (map in_arm arms.now) }
{
    'arms: for arm in arms.as_slice() {
        if search_expr(&arm.body) {
            return true;
        }
    }
    false
}

/// In an expression.
#[cycle(walk)]
fn search_expr(e: &TypedExpr) -> bool
    ensures { result ≡ in_expr e.now }
{
    search_form(&e.form)
}

/// In the form of an expression.
#[cycle(walk)]
fn search_form(form: &TypedForm) -> bool
    ensures { result ≡ in_form form.now }
{
    match form {
        TypedForm::Jet(_, _)
        | TypedForm::Fold(_, _, _, _)
        | TypedForm::ArrayFold(_, _, _, _)
        | TypedForm::ForWhile(_, _, _) => true,
        TypedForm::Block(statements, last) => {
            if search_statements(statements) {
                return true;
            }
            match last {
                Some(e) => search_expr(e.get()),
                None => false,
            }
        }
        TypedForm::Match(e, arms) => search_expr(e.get()) || search_arms(arms),
        TypedForm::Tuple(parts)
        | TypedForm::Array(parts)
        | TypedForm::List(parts)
        | TypedForm::Call(_, parts) => search_exprs(parts),
        TypedForm::Assert(e)
        | TypedForm::Dbg(e)
        | TypedForm::Into(_, e)
        | TypedForm::Unwrap(e)
        | TypedForm::UnwrapLeft(_, e)
        | TypedForm::UnwrapRight(_, e)
        | TypedForm::IsNone(_, e)
        | TypedForm::Left(e)
        | TypedForm::Right(e)
        | TypedForm::Some(e) => search_expr(e.get()),
        TypedForm::Panic
        | TypedForm::Witness(_)
        | TypedForm::Value(_)
        | TypedForm::Nothing
        | TypedForm::True
        | TypedForm::False
        | TypedForm::Literal(_)
        | TypedForm::Name(_) => false,
    }
}

/// Whether some function of the program holds a call of a jet or a loop.
pub fn unbuilt(program: &TypedProgram) -> bool
    ensures { result ≡ in_program program.now.functions }
{
    'functions: for function in program.functions().as_slice() {
        if search_expr(&function.body) {
            return true;
        }
    }
    false
}
