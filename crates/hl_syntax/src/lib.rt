//! Spans, tokens and syntax trees of the source language: what lexer, parser, checker, evaluator
//! and translator hand to one another. It has no calls but those of its list types.
#![tactic(auto)]

mod kinds;
mod rules;
mod token;
mod tree;

pub use kinds::{Aliases, HlType, HlTypes, TypedName, Wanted};
pub use rules::{Limit, Rule};
pub use token::{Mark, Span, Symbol, Token, TokenKind, TokenList};
pub use tree::{
    Arm, Arms, Expr, ExprForm, Exprs, Item, Param, Params, Pattern, PatternForm, Patterns, Program,
    Side, Statement, Statements, TypeForm, TypeText, TypeTexts,
};
