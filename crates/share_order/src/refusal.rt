//! Why a list is refused.

use std::alloc::{AllocError, AllocFailed};

/// Why a list isn't canonical.
#[derive(Clone, Copy, Debug, PartialEq, Eq)]
pub enum OrderRefusal {
    /// The first node that isn't in its place in the left-first post-order of the root.
    NotCanonical { node: usize },
    /// Two nodes are equal: the least second one of all such pairs, and the first node that it is equal to.
    NotShared { first: usize, second: usize },
    OutOfMemory,
}

impl From<AllocError> for OrderRefusal {
    ghost use Rattle.std.specs.Prelude.{◌≡◌};
    ghost use Rattle.share_order.specs.declared.refusal.OrderRefusal.TheVariants.{OutOfMemory};

    ghost from_gives = { λ _ refusal. refusal ≡ OutOfMemory };

    fn from(_error: AllocError) -> OrderRefusal {
        OrderRefusal::OutOfMemory
    }
}

impl<T: Drop> From<AllocFailed<T>> for OrderRefusal {
    ghost use Rattle.std.specs.Prelude.{◌≡◌};
    ghost use Rattle.share_order.specs.declared.refusal.OrderRefusal.TheVariants.{OutOfMemory};

    ghost from_gives = { λ _ refusal. refusal ≡ OutOfMemory };

    fn from(_error: AllocFailed<T>) -> OrderRefusal {
        OrderRefusal::OutOfMemory
    }
}

/// Why no list is answered in the place of another.
#[derive(Clone, Copy, Debug, PartialEq, Eq)]
pub enum CanonRefusal {
    /// A type of the least typing has a tree of more than 4,194,304 nodes.
    TypeTooLarge,
    /// The list would have more than 1,048,576 nodes.
    TooManyNodes,
    OutOfMemory,
}

impl From<AllocError> for CanonRefusal {
    ghost use Rattle.std.specs.Prelude.{◌≡◌};
    ghost use Rattle.share_order.specs.declared.refusal.CanonRefusal.TheVariants.{OutOfMemory};

    ghost from_gives = { λ _ refusal. refusal ≡ OutOfMemory };

    fn from(_error: AllocError) -> CanonRefusal {
        CanonRefusal::OutOfMemory
    }
}
