//! Commitment roots of nodes, with SHA-256 (FIPS 180-4).
#![tactic(auto)]

mod list;
mod node;
mod tag;
mod whole;
mod word;

pub use list::Roots;
pub use node::fail_root;
pub use whole::roots;
