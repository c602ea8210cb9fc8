//! Why a list has no typing to use.

ghost use Rattle.std.specs.Prelude.{◌≡◌};
ghost use Rattle.infer_cells.specs.declared.refusal.SolveRefusal.TheVariants.{OutOfMemory};

use std::alloc::AllocError;

/// Why no typing is answered.
#[derive(Clone, Copy, Debug, PartialEq, Eq)]
pub enum InferRefusal {
    /// No typing of the list has the arrow at its root.
    NoTyping,
    /// A type of the least typing has a tree of more than 4,194,304 nodes.
    TypeTooLarge,
    OutOfMemory,
}

/// Why cells are not solved.
#[derive(Clone, Copy, Debug, PartialEq, Eq)]
pub(crate) enum SolveRefusal {
    /// They have no solution.
    NoTyping,
    OutOfMemory,
}

impl From<AllocError> for SolveRefusal {
    ghost from_gives = { λ _ e. e ≡ OutOfMemory };

    fn from(_error: AllocError) -> SolveRefusal {
        SolveRefusal::OutOfMemory
    }
}
