//! The rules of the source language: a text's tree is walked in order, and either breaks a rule or
//! a limit first, or has its types.
#![tactic(auto)]

mod block;
mod calls;
mod checking;
mod expr;
mod folds;
mod forms;
mod literal;
mod program;

pub use hl_data::{Functions, TypedFunction};
pub use hl_scope::CheckRefusal;
pub use hl_typed::TypedProgram;
pub use program::check;
