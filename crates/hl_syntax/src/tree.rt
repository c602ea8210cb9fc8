//! Trees of source texts, as they are written.

use crate::{Mark, Span};
use lists::{Boxed as Box, Sequence, Text};

/// A source text: its functions and aliases in the text's order.
pub type Program = Sequence<Item>;

pub type Params = Sequence<Param>;

pub type TypeTexts = Sequence<TypeText>;

pub type Patterns = Sequence<Pattern>;

pub type Statements = Sequence<Statement>;

pub type Exprs = Sequence<Expr>;

pub type Arms = Sequence<Arm>;

/// What stands at the top of a source text.
#[derive(Drop)]
pub enum Item {
    /// `type name = kind;`
    Alias {
        name: Mark,
        kind: TypeText,
        span: Span,
    },
    /// `fn name(params) -> result body`; the body's form is a block. A result that is left out is
    /// None.
    Function {
        name: Mark,
        params: Params,
        result: Option<TypeText>,
        body: Expr,
        span: Span,
    },
}

/// A parameter of a function, `name: kind`.
#[derive(Drop)]
pub struct Param {
    pub name: Mark,
    pub kind: TypeText,
    pub span: Span,
}

/// A type as it is written.
#[cycle(types)]
#[derive(Drop)]
pub struct TypeText {
    pub form: TypeForm,
    pub span: Span,
}

/// The forms of a written type.
#[cycle(types)]
#[derive(Drop)]
pub enum TypeForm {
    Tuple(TypeTexts),
    /// `[item; length]`
    Array(Box<TypeText>, Mark),
    /// `List<item, bound>`
    List(Box<TypeText>, Mark),
    Option(Box<TypeText>),
    Either(Box<TypeText>, Box<TypeText>),
    /// bool, a number's type or an alias.
    Name(Text),
}

/// A pattern, which binds names.
#[cycle(patterns)]
#[derive(Drop)]
pub struct Pattern {
    pub form: PatternForm,
    pub span: Span,
}

/// The forms of a pattern.
#[cycle(patterns)]
#[derive(Drop)]
pub enum PatternForm {
    Name(Text),
    /// `_`
    Ignore,
    Tuple(Patterns),
    Array(Patterns),
}

/// A statement of a block.
#[cycle(exprs)]
#[derive(Drop)]
pub enum Statement {
    /// `let pattern: kind = value;`
    Let {
        pattern: Pattern,
        kind: TypeText,
        value: Expr,
        span: Span,
    },
    /// An expression with its semicolon.
    Plain(Expr),
}

/// An arm of a match, `side => body`.
#[cycle(exprs)]
#[derive(Drop)]
pub struct Arm {
    pub side: Side,
    pub body: Expr,
    pub span: Span,
}

/// Which values an arm is for, and what it binds.
#[derive(Drop)]
pub enum Side {
    Left(Pattern, TypeText),
    Right(Pattern, TypeText),
    Some(Pattern, TypeText),
    /// `None`
    Nothing,
    True,
    False,
}

/// An expression.
#[cycle(exprs)]
#[derive(Drop)]
pub struct Expr {
    pub form: ExprForm,
    pub span: Span,
}

/// The forms of an expression.
#[cycle(exprs)]
#[derive(Drop)]
pub enum ExprForm {
    /// Statements, and the last expression where there is one.
    Block(Statements, Option<Box<Expr>>),
    Match(Box<Expr>, Arms),
    Tuple(Exprs),
    Array(Exprs),
    /// `list![..]`
    List(Exprs),
    /// `assert!(..)`
    Assert(Box<Expr>),
    /// `dbg!(..)`
    Dbg(Box<Expr>),
    /// `panic!()`
    Panic,
    /// `jet::name(..)`
    Jet(Mark, Exprs),
    /// `witness::name`
    Witness(Mark),
    /// `param::name`
    Param(Mark),
    /// `<kind>::into(..)`
    Into(TypeText, Box<Expr>),
    /// `unwrap(..)`
    Unwrap(Box<Expr>),
    /// `unwrap_left::<kind>(..)`
    UnwrapLeft(TypeText, Box<Expr>),
    /// `unwrap_right::<kind>(..)`
    UnwrapRight(TypeText, Box<Expr>),
    /// `is_none::<kind>(..)`
    IsNone(TypeText, Box<Expr>),
    /// `fold::<function, count>(list, start)`
    Fold(Mark, Mark, Box<Expr>, Box<Expr>),
    /// `array_fold::<function, count>(array, start)`
    ArrayFold(Mark, Mark, Box<Expr>, Box<Expr>),
    /// `for_while::<function>(start, context)`
    ForWhile(Mark, Box<Expr>, Box<Expr>),
    Left(Box<Expr>),
    Right(Box<Expr>),
    Some(Box<Expr>),
    /// `None`
    Nothing,
    True,
    False,
    Literal(Text),
    /// `name(..)`
    Call(Mark, Exprs),
    Name(Text),
}
