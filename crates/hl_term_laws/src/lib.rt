//! Terms render what the source means: laws of the definition of terms, for both editions of the
//! language. The functions below have no body, and their contracts are the laws.
#![tactic(auto)]

ghost use Rattle.hl_term_laws.specs.Laws.{ExpressionsRender, FunctionsRender};

/// The term of a typed expression in a scope has the arrow from the scope's type to that of the
/// expression, keeps to the typing table at every place, and on the encodings of values it computes
/// the encoding of what the expression gives, or fails where that fails.
pub fn expressions_render_law()
    ensures { ExpressionsRender }
{}

/// The same of the functions of a typed program, each on the tuple of its arguments' encodings.
pub fn functions_render_law()
    ensures { FunctionsRender }
{}
