//! Value texts are expressions: the tokens of a value text are an expression with the same tree,
//! and the walk that reads a value at a type agrees with the walk that checks the expression at
//! it. No function has a body; their contracts are the laws.
#![tactic(auto)]

ghost use Rattle.hl_value_walks.specs.Laws.{ExpressionsOfValuesAreTexts, TextsAgree, ValueTextsAreExpressions, WalksAgree};

/// An expression of forms of values is a value of a sound type exactly where its walk as an
/// expression at the type breaks no rule, and then its typed tree means that value.
pub fn walks_agree()
    ensures { WalksAgree }
{}

/// What is a value text is an expression with the same tree, and that is of forms of values.
pub fn value_texts_are_expressions()
    ensures { ValueTextsAreExpressions }
{}

/// What is an expression of forms of values is a value text with the same tree.
pub fn expressions_of_values_are_texts()
    ensures { ExpressionsOfValuesAreTexts }
{}

/// A text that is an expression of forms of values is a value text of a sound type exactly where
/// its walk as an expression at the type breaks no rule, and then for the value that it means.
pub fn texts_agree()
    ensures { TextsAgree }
{}
