//! The rules of the source language, defined once for every layer that speaks of them: the walk
//! that finds the first rule or limit that a text breaks, or gives its typed tree; and, apart from
//! the walk, what it is for a text to break a rule or a limit at one of its places.
#![tactic(auto)]

ghost use Rattle.hl_rules.specs.Breaks.{AnsweredIsBroken};

/// What the walk finds first is broken.
pub fn answered_rules_are_broken()
    ensures { AnsweredIsBroken }
{}
