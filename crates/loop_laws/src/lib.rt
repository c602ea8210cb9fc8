//! The loops of the source language as terms over the terms of their functions, with an arrow at
//! every place. The functions below have no body, and their contracts are the laws.
#![tactic(auto)]

ghost use Rattle.loop_laws.specs.Laws.{ArraysFold, ArraysHalve, ListsFold, WhilesRun, FoldsTyped, WhilesTyped};

/// A fold over an array means the recursion over its items, failure included, whatever the term of
/// its function is.
pub fn arrays_fold_law()
    ensures { ArraysFold }
{}

/// A fold over an array of more than one item is made of those over its halves.
pub fn arrays_halve_law()
    ensures { ArraysHalve }
{}

/// A fold over a list means the recursion over its items.
pub fn lists_fold_law()
    ensures { ListsFold }
{}

/// A loop with a counter means the recursion over its counts, whatever the term of its function is.
pub fn whiles_run_law()
    ensures { WhilesRun }
{}

/// Folds keep to the typing table at every place, where the terms of their functions do.
pub fn folds_typed_law()
    ensures { FoldsTyped }
{}

/// Loops with a counter do too.
pub fn whiles_typed_law()
    ensures { WhilesTyped }
{}
