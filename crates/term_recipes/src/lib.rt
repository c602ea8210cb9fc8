//! Terms of the constructs of the language in a table: a call for each shape that takes more than
//! one row. Each gives the id of the term that the definition of terms has for the construct.
#![tactic(auto)]

mod joined;
mod listed;
mod paths;
mod sides;
mod tested;
mod tuples;
mod words;

pub use joined::{add_bound, add_called, add_followed, add_matched, add_paired};
pub use listed::{add_list, list_level};
pub use paths::add_path;
pub use sides::{add_nothing, add_some};
pub use tested::{add_asserted, add_none_tested, add_unwrapped_left, add_unwrapped_right};
pub use tuples::add_tuple;
pub use words::{add_false, add_true, add_word, add_word_value};
