//! Values of the source language, and syntax trees with their types: what the readers of values,
//! the checker, the evaluator and the translator hand to one another. It has no calls.
#![tactic(auto)]

mod typed;
mod value;

pub use typed::{
    Functions, TypedArm, TypedArms, TypedExpr, TypedExprs, TypedForm, TypedFunction, TypedSide,
    TypedStatement, TypedStatements,
};
pub use value::{Entries, Entry, HlValue, HlValues, Names};
