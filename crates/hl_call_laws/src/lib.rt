//! Calls of typed programs in terms: laws of the definition of terms, for both editions of the
//! language. The functions below have no body, and their contracts are the laws.
#![tactic(auto)]

ghost use Rattle.hl_call_laws.specs.Laws.{CallsAgree, CompiledCallsAgree};

/// Each call of a typed program that fits it: the term of the function that is called, on the
/// encoding of the argument, gives the encoding of the value that the call gives, and fails exactly
/// where the call fails; one of both is the case.
pub fn calls_agree_law()
    ensures { CallsAgree }
{}

/// The same with the jets and the loops of this compiler: no premise on them is left.
pub fn compiled_calls_agree_law()
    ensures { CompiledCallsAgree }
{}
