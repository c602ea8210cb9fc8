//! The order of lists of nodes, and what is shared in them.
#![tactic(auto)]

mod classes;
mod gathering;
mod least_places;
mod merging;
mod order;
mod places;
mod refusal;
mod rename;
mod reordering;
mod shared;
mod tell;
mod walk;

pub use gathering::gather;
pub use merging::{Merged, merge};
pub use order::check_order;
pub use places::Places;
pub use refusal::{CanonRefusal, OrderRefusal};
pub use reordering::{Reordered, reorder};
pub use shared::check_shared;
pub use walk::post_order;
