//! A small function read from its text.

ghost use Rattle.std.specs.Prelude.{◌≡◌, ◌+◌, ◌<◌, ◌≤◌, [], ◌∷◌, bytes_eq, IfOk, IsErrOf};
ghost use Rattle.std.specs.List.{list_any};
ghost use Rattle.small_source.specs.Small.{Small, IsSmall, IsOneFunction, NamesStandIn};
ghost use Rattle.small_source.specs.Tokens.{tokens_from};
ghost use Rattle.small_source.specs.Read.{name_read, type_read, body_read, parameter_read, parameters_read, goes_on_read, signature_read, function_read};
ghost use Rattle.small_source.specs.View.{body_of, shape_of, small_of, Gives, GivesRest, Reads};

use crate::cursor::{Cursor, Token};
use crate::names::{names_function, names_variable};
use crate::small::{Body, Name, Shape, SmallFunction, SmallRefusal};
use std::alloc::Global;

// The most parameters that a function has, and the deepest nesting of its result type.
const MOST_PARAMETERS: u8 = 8;

const DEEPEST: u8 = 8;

// A name of a variable.
#[tactic(auto, unfolding(crate::specs::Read::name_read))]
fn name<'a>(cursor: &mut Cursor<'a>) -> Result<Token<'a>, SmallRefusal>
    ensures { Gives (λ token. (token.bytes.now, token.place)) (name_read cursor.old) result cursor.new }
{
    match cursor.pop() {
        Some(token) if names_variable(token.bytes) => Ok(token),
        _ => Err(SmallRefusal::NotSmall),
    }
}

// A result type that is nested at most `depth` deep.
#[tactic(auto, unfolding(crate::specs::Read::type_read))]
fn result_type(alloc: Global, cursor: &mut Cursor<'_>, depth: u8) -> Result<Shape, SmallRefusal>
    ensures { Gives shape_of (type_read depth cursor.old) result cursor.new }
{
    if cursor.take_if(b"u8") {
        return Ok(Shape::Byte);
    }
    if depth == 0 {
        return Err(SmallRefusal::NotSmall);
    }
    cursor.expect(b"(")?;
    let first = result_type(alloc, cursor, depth - 1)?;
    cursor.expect(b",")?;
    let second = result_type(alloc, cursor, depth - 1)?;
    cursor.expect(b")")?;
    Ok(Shape::Both(Box::new(alloc, first)?, Box::new(alloc, second)?))
}

// A body that is nested as a type is.
#[tactic(auto, unfolding(crate::specs::Read::body_read))]
fn body(alloc: Global, cursor: &mut Cursor<'_>, shape: &Shape) -> Result<Body, SmallRefusal>
    ensures { Gives body_of (body_read (shape_of shape.now) cursor.old) result cursor.new }
{
    match shape {
        Shape::Byte => {
            let token = name(cursor)?;
            Ok(Body::Named(Name::copy_of(alloc, token.bytes)?, token.place))
        }
        Shape::Both(first, second) => {
            cursor.expect(b"(")?;
            let first = body(alloc, cursor, first)?;
            cursor.expect(b",")?;
            let second = body(alloc, cursor, second)?;
            cursor.expect(b")")?;
            Ok(Body::Paired(Box::new(alloc, first)?, Box::new(alloc, second)?))
        }
    }
}

// Whether one of the names has these bytes.
fn has_name(names: &[Name], bytes: &[u8]) -> bool
    ensures { result ≡ list_any (bytes_eq bytes.now) names.now }
{
    names.iter().any(|name| bytes == name.as_bytes())
}

// A parameter whose name is none of those before.
#[tactic(auto, unfolding(crate::specs::Read::parameter_read))]
fn parameter(alloc: Global, cursor: &mut Cursor<'_>, before: &[Name]) -> Result<Name, SmallRefusal>
    ensures { Gives (λ name. name) (parameter_read before.now cursor.old) result cursor.new }
{
    let token = name(cursor)?;
    cursor.expect(b":")?;
    cursor.expect(b"u8")?;
    if has_name(before, token.bytes) {
        return Err(SmallRefusal::NotSmall);
    }
    Ok(Name::copy_of(alloc, token.bytes)?)
}

// Whether a further parameter follows, after a comma, or none, after a parenthesis.
#[tactic(auto, unfolding(crate::specs::Read::goes_on_read))]
fn goes_on(cursor: &mut Cursor<'_>) -> Result<bool, SmallRefusal>
    ensures { Gives (λ more. more) (goes_on_read cursor.old) result cursor.new }
{
    if cursor.take_if(b")") {
        return Ok(false);
    }
    cursor.expect(b",")?;
    Ok(true)
}

// The parameters, and the parenthesis after them.
#[tactic(auto, using(crate::proofs::Turns::parameters_turn), unfolding(crate::specs::Read::parameters_read))]
fn parameters(alloc: Global, cursor: &mut Cursor<'_>) -> Result<Vec<Name>, SmallRefusal>
    ensures { Gives (λ names. names.items) (parameters_read 8 [] cursor.old) result cursor.new }
{
    let mut names = Vec::new(alloc);
    for _ in 0..MOST_PARAMETERS {
        let name = parameter(alloc, cursor, names.as_slice())?;
        names.push(name)?;
        if !goes_on(cursor)? {
            return Ok(names);
        }
    }
    Err(SmallRefusal::NotSmall)
}

// A function of the asked name up to its result type: its parameters, and how the type is nested.
#[tactic(auto, unfolding(crate::specs::Read::signature_read))]
fn signature(
    alloc: Global,
    cursor: &mut Cursor<'_>,
    asked: &[u8],
) -> Result<(Vec<Name>, Shape), SmallRefusal>
    ensures { Gives (λ x. (x.0.items, shape_of x.1))
        (signature_read asked.now cursor.old) result cursor.new }
{
    cursor.expect(b"fn")?;
    cursor.expect(asked)?;
    cursor.expect(b"(")?;
    let names = parameters(alloc, cursor)?;
    cursor.expect(b"->")?;
    let shape = result_type(alloc, cursor, DEEPEST)?;
    Ok((names, shape))
}

// A whole function of the asked name.
#[tactic(auto, unfolding(crate::specs::Read::function_read))]
fn function(
    alloc: Global,
    cursor: &mut Cursor<'_>,
    asked: &[u8],
) -> Result<SmallFunction, SmallRefusal>
    ensures { Reads (function_read asked.now cursor.old) result }
{
    let (parameters, shape) = signature(alloc, cursor, asked)?;
    cursor.expect(b"{")?;
    let body = body(alloc, cursor, &shape)?;
    cursor.expect(b"}")?;
    if !cursor.is_empty() {
        return Err(SmallRefusal::NotSmall);
    }
    Ok(SmallFunction { parameters, body })
}

/// Reads a small source for the asked name. `small_of` of the result is the one function that the
/// text is a small source of.
///
/// # Errors
///
/// `NotSmall` where the text isn't a small source for the asked name, and `OutOfMemory`.
#[tactic(auto, using(crate::proofs::Complete::read_from_small))]
pub fn read_small(alloc: Global, text: &[u8], asked: &[u8]) -> Result<SmallFunction, SmallRefusal>
    ensures small { IfOk result (λ f. IsSmall text.now asked.now (small_of f)) }
    ensures places { IfOk result (λ f. NamesStandIn text.now (body_of f.body)) }
    ensures not_small { IsErrOf result SmallRefusal.NotSmall →
        (f : Small) → ¬ IsSmall text.now asked.now f }
{
    if !names_function(asked) {
        return Err(SmallRefusal::NotSmall);
    }
    function(alloc, &mut Cursor::new(text), asked)
}

/// The law that a text is a small source of one function at most.
pub fn one_function()
    ensures { IsOneFunction }
{}
