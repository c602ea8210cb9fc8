//! What the search finds: a law of its definition, the contract of a function without a body.

ghost use Rattle.hl_constructs.specs.Places.{HeldStands};

/// A program is found to hold such a construct exactly where one stands at some place of a body.
pub fn held_constructs_stand_law()
    ensures { HeldStands }
{}
