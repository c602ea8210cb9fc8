//! Laws of reading a program's bits: each function below has no body, and its contract is a law.
#![tactic(auto)]

ghost use Rattle.spelling.specs.Stops.{NodesStop};
ghost use Rattle.spelling.specs.Places.{PlacesCount};
ghost use Rattle.spelling.specs.Refusals.{RefusalsAreNamed};
ghost use Rattle.spelling.specs.Values.{ValuesAreRead, ValuesAreRefused};
ghost use Rattle.spelling.specs.Laws.{NaturalsAreRead, NaturalsAreRefused, NaturalsArePrefixFree, NaturalsHaveParts, ProgramsAreRead};

/// A natural is read exactly where its bits stand, and no bit more.
pub fn naturals_are_read_law()
    ensures { NaturalsAreRead }
{}

/// A natural is refused as too large exactly where a length part of 32 or more stands whole, and
/// else exactly where the bits end.
pub fn naturals_are_refused_law()
    ensures { NaturalsAreRefused }
{}

/// No code of a natural begins another.
pub fn naturals_are_prefix_free_law()
    ensures { NaturalsArePrefixFree }
{}

/// A natural is read by its parts, as many as ones stand first, without recursion.
pub fn naturals_have_parts_law()
    ensures { NaturalsHaveParts }
{}

/// A program is read exactly where its bytes spell a list of few nodes, and as that list.
pub fn programs_are_read_law()
    ensures { ProgramsAreRead }
{}

/// A reading's places count bits from the program's first.
pub fn places_count_law()
    ensures { PlacesCount }
{}

/// Nodes are refused only after fewer nodes that stand in the bits, fit and are placed.
pub fn nodes_stop_law()
    ensures { NodesStop }
{}

/// A value of a type is read exactly where its compact code stands, and no bit more.
pub fn values_are_read_law()
    ensures { ValuesAreRead }
{}

/// A value is refused exactly where the bits end inside one, at their number.
pub fn values_are_refused_law()
    ensures { ValuesAreRefused }
{}

/// A natural and a node are refused, while they are read, exactly as their fields say.
pub fn refusals_are_named_law()
    ensures { RefusalsAreNamed }
{}
