//! Terms: as lists of nodes in the order of their bits, and as a table of nodes by number.
#![tactic(auto)]

mod keyed;
mod laws;
mod level;
mod list;
mod list_node;
mod table;
mod table_node;

pub use laws::{standing_stays_law, terms_are_typed_law, terms_stay_law};
pub use level::word_level;
pub use list::NodeList;
pub use list_node::ListNode;
pub use table::TermTable;
pub use table_node::{Node, NodeId, TermRow};
