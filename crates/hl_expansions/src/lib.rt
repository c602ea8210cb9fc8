//! The terms of typed programs with the parts of this compiler, its terms of jets and of loops, in
//! both editions of the language. The functions below have no body, and their contracts are the
//! laws.
#![tactic(auto)]

ghost use Rattle.hl_expansions.specs.Laws.{PartsRendered, ProgramsRender, ProgramTermsAreTyped, BodiesAreTyped, FunctionsInOrder, TermsGrow};

/// The terms of jets and of loops do what jets and loops do, and values are encoded back: what the
/// laws of terms ask for.
pub fn expansions_render_law()
    ensures { PartsRendered }
{}

/// The term of each function of a typed program computes what the function means.
pub fn programs_render_law()
    ensures { ProgramsRender }
{}

/// The term of each function of a typed program keeps to the typing table at every place, from the
/// tuple of the function's parameters to its result.
pub fn program_terms_are_typed_law()
    ensures { ProgramTermsAreTyped }
{}

/// The term of a typed expression keeps to the typing table at every place, and goes from the type
/// of its scope to that of the expression.
pub fn bodies_are_typed_law()
    ensures { BodiesAreTyped }
{}

/// Each function of a typed program is typed after those before it, which are typed themselves.
pub fn functions_in_order_law()
    ensures { FunctionsInOrder }
{}

/// The terms of functions grow one by one, each over the terms before it.
pub fn terms_grow_law()
    ensures { TermsGrow }
{}
