//! A law of the refusals of a whole program: the function below has no body, and its contract is the law.
#![tactic(auto)]

ghost use Rattle.reading_laws.specs.Programs.{ProgramsAreRefused};

/// A program's bytes are refused exactly as their fields say, from the first field to the last.
pub fn programs_are_refused_law()
    ensures { ProgramsAreRefused }
{}
