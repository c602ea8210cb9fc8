//! The codes of source values in the core language. The function below has no body, and its contract
//! is the law.
#![tactic(auto)]

ghost use Rattle.value_codes.specs.Laws.{ValuesCode};

/// At a sound type the encoding of values is one to one onto the core values of the type's form, and
/// decoding is its inverse.
pub fn values_code_law()
    ensures { ValuesCode }
{}
