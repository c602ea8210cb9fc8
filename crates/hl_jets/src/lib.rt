//! That every jet, on arguments of its types, gives a value of its result type or fails: the
//! function below has no body, and its contract is the law.
#![tactic(auto)]

ghost use Rattle.hl_jets.specs.Laws.{JetsAnswer};

/// Every jet, on arguments of its types, gives a value of its result type or fails.
pub fn jets_give_their_types()
    ensures { JetsAnswer }
{}
