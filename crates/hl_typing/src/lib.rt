//! Typed programs have a typing of their own: rules of typing for typed trees, and the source tree
//! that a typed tree is of, both apart from the walk that makes them. All functions but the last
//! have no body, and their contracts are the laws; the last is for who holds a typed program.
#![tactic(auto)]

ghost use Rattle.hl_typing.specs.Laws.{AnsweredIsErased, AnsweredIsTyped, AnsweredIsUnbroken, AnsweredNamesWitnesses};
ghost use Rattle.hl_typing.specs.Programs.{ProgramTyped};

use hl_typed::TypedProgram;

/// What the walk answers as a program is typed by the rules.
pub fn answered_programs_are_typed()
    ensures { AnsweredIsTyped }
{}

/// With its types left out it is the source text.
pub fn answered_programs_are_the_source()
    ensures { AnsweredIsErased }
{}

/// Its witnesses are those that the source text names, in the text's order.
pub fn answered_witnesses_are_named()
    ensures { AnsweredNamesWitnesses }
{}

/// Where the walk answers a program, nothing is broken; so it answers a rule or a limit exactly
/// where one is broken.
pub fn answered_programs_are_unbroken()
    ensures { AnsweredIsUnbroken }
{}

/// A typed program is typed by the rules.
pub fn typed_programs_are_typed(program: &TypedProgram)
    ensures { ProgramTyped program.now }
{
    program.breaks_nothing();
}
