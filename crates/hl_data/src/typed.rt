//! Typed trees of the source language: functions, statements, arms and expressions with their types.

use crate::HlValue;
use hl_syntax::{HlType, Pattern, Wanted};
use lists::{Boxed as Box, Sequence, Text};

/// The functions of a source text, in the text's order.
pub type Functions = Sequence<TypedFunction>;

pub type TypedStatements = Sequence<TypedStatement>;

pub type TypedExprs = Sequence<TypedExpr>;

pub type TypedArms = Sequence<TypedArm>;

/// A function with the types of its parameters, its result and all that its body holds.
#[derive(Drop)]
pub struct TypedFunction {
    pub name: Text,
    pub params: Wanted,
    pub result: HlType,
    pub body: TypedExpr,
}

/// A statement of a block.
#[cycle(typed)]
#[derive(Drop)]
pub enum TypedStatement {
    /// `let pattern: kind = value;`
    Let {
        pattern: Pattern,
        kind: HlType,
        value: TypedExpr,
    },
    /// An expression with its semicolon.
    Plain(TypedExpr),
}

/// An arm of a match, `side => body`.
#[cycle(typed)]
#[derive(Drop)]
pub struct TypedArm {
    pub side: TypedSide,
    pub body: TypedExpr,
}

/// Which values an arm is for, and what it binds.
#[derive(Drop)]
pub enum TypedSide {
    Left(Pattern, HlType),
    Right(Pattern, HlType),
    Some(Pattern, HlType),
    /// `None`
    Nothing,
    True,
    False,
}

/// An expression and its type.
#[cycle(typed)]
#[derive(Drop)]
pub struct TypedExpr {
    pub kind: HlType,
    pub form: TypedForm,
}

/// The forms of an expression.
#[cycle(typed)]
#[derive(Drop)]
pub enum TypedForm {
    /// Statements, and the last expression where there is one.
    Block(TypedStatements, Option<Box<TypedExpr>>),
    Match(Box<TypedExpr>, TypedArms),
    Tuple(TypedExprs),
    Array(TypedExprs),
    /// `list![..]`
    List(TypedExprs),
    /// `assert!(..)`
    Assert(Box<TypedExpr>),
    /// `dbg!(..)`
    Dbg(Box<TypedExpr>),
    /// `panic!()`
    Panic,
    /// `jet::name(..)`
    Jet(Text, TypedExprs),
    /// `witness::name`
    Witness(Text),
    /// The value of the entry that `param::name` names.
    Value(HlValue),
    /// `<kind>::into(..)`
    Into(HlType, Box<TypedExpr>),
    /// `unwrap(..)`
    Unwrap(Box<TypedExpr>),
    /// `unwrap_left::<kind>(..)`
    UnwrapLeft(HlType, Box<TypedExpr>),
    /// `unwrap_right::<kind>(..)`
    UnwrapRight(HlType, Box<TypedExpr>),
    /// `is_none::<kind>(..)`
    IsNone(HlType, Box<TypedExpr>),
    /// `fold::<function, count>(list, start)`
    Fold(Text, Text, Box<TypedExpr>, Box<TypedExpr>),
    /// `array_fold::<function, count>(array, start)`
    ArrayFold(Text, Text, Box<TypedExpr>, Box<TypedExpr>),
    /// `for_while::<function>(start, context)`
    ForWhile(Text, Box<TypedExpr>, Box<TypedExpr>),
    Left(Box<TypedExpr>),
    Right(Box<TypedExpr>),
    Some(Box<TypedExpr>),
    /// `None`
    Nothing,
    True,
    False,
    Literal(Text),
    /// `name(..)`
    Call(Text, TypedExprs),
    Name(Text),
}
