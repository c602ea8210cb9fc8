//! That checked programs have answers: where a program is typed by the rules, and so where a source
//! text breaks no rule and no limit, each call of its functions that fits them fails or gives a value
//! of the function's result type. The functions below have no body, and their contracts are the laws.
#![tactic(auto)]

ghost use Rattle.hl_progress.specs.Laws.{CheckedAnswers, TypedAnswers};

/// Each call of a function of a program that is typed by the rules, where the call fits it, fails or
/// gives a value of the function's result type.
pub fn typed_answers_law()
    ensures { TypedAnswers }
{}

/// Each call of a function of a checked program that fits it fails or gives a value of the
/// function's result type.
pub fn checked_answers_law()
    ensures { CheckedAnswers }
{}
