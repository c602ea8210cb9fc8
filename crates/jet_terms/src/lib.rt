//! The jets as terms of the core language, with an arrow at every place. The functions below have no
//! body, and their contracts are the laws.
#![tactic(auto)]

ghost use Rattle.jet_terms.specs.Laws.{JetsAreTyped, JetsCompute};

/// The expansion of each jet keeps to the typing table at every place, and goes from the type of the
/// jet's arguments to that of its results.
pub fn jets_are_typed_law()
    ensures { JetsAreTyped }
{}

/// On the words of numbers the expansion of each jet gives the words of what the jet's formula
/// says, and fails exactly where that gives nothing.
pub fn jets_compute_law()
    ensures { JetsCompute }
{}
