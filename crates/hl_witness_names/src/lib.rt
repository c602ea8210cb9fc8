//! The witnesses of a typed program are those that the term of its `main` holds. The first function
//! has no body of its own, and its contract is the law; the second is for who holds a typed program.
#![tactic(auto)]

ghost use Rattle.hl_witness_names.specs.Laws.{AnsweredIsHeld, AreHeld};

use hl_typed::TypedProgram;

/// The names that `main` of a program holds, in the order in which its term has them, are those of
/// the program's witnesses, each once: in edition 2 in their order, in edition 1 in some order. Another
/// function holds none.
pub fn answered_witnesses_are_held()
    ensures { AnsweredIsHeld }
{
    hl_typing::answered_programs_are_the_source();
    hl_typing::answered_programs_are_typed();
    hl_typing::answered_witnesses_are_named();
}

/// The same of a typed program.
pub fn typed_witnesses_are_held(program: &TypedProgram)
    ensures { AreHeld program.now }
{
    answered_witnesses_are_held();
    program.breaks_nothing();
}
