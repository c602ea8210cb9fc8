//! How the grammar of the source language is read with one token of look-ahead, and that this
//! reading is the grammar: each function below has no body, and its contract is a law.
#![tactic(auto)]

ghost use Rattle.simplicityhl.specs.Grammar as grammar;
ghost use Rattle.hl_grammar.specs.Laws.{IsOne, HasFronts};

/// Tokens are one type at most.
pub fn one_type_law()
    ensures { IsOne grammar.type }
{}

/// Tokens are one program at most.
pub fn one_program_law()
    ensures { IsOne grammar.program }
{}

/// Tokens are one expression at most.
pub fn one_expr_law()
    ensures { IsOne grammar.expr }
{}

/// Tokens are one value text at most.
pub fn one_value_law()
    ensures { IsOne grammar.value }
{}

/// Types: viable tokens can be completed, and all tokens are a type, dead at a place, or too deep
/// from a token on.
pub fn type_fronts_law()
    ensures { HasFronts grammar.type }
{}

/// The same for programs.
pub fn program_fronts_law()
    ensures { HasFronts grammar.program }
{}

/// The same for expressions.
pub fn expr_fronts_law()
    ensures { HasFronts grammar.expr }
{}

/// The same for value texts.
pub fn value_fronts_law()
    ensures { HasFronts grammar.value }
{}
