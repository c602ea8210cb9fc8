//! The law of this crate, as the contract of a function without a body.

ghost use Rattle.machine_moves.specs.Laws.{TurnsAreTaken};

/// An instruction that is ready takes its turn of the machine, and one that takes its turn is ready.
pub fn turns_are_taken_law()
    ensures { TurnsAreTaken }
{}
