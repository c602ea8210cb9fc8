//! Terms made of terms in a table: a call for each way to make one, which adds its row. The two
//! functions without a body are laws: which row may be added, and that it means what is made.
#![tactic(auto)]

ghost use Rattle.term_makers.specs.Made.{ArrowsAreTold, RowsAreMade};

mod makers;

pub use makers::{
    add_by_tag, add_comp, add_fail, add_iden, add_on_first, add_on_second, add_only_left,
    add_only_right, add_pair, add_to_left, add_to_right, add_unit, add_witness, arrow_of,
};

/// The ids of the source and the target of a row mean the source and the target of its term.
pub fn arrows_are_told_law()
    ensures { ArrowsAreTold }
{}

/// A row of this node and these types may be added to the table, and means the term that is made of
/// the terms of its children.
pub fn rows_are_made_law()
    ensures { RowsAreMade }
{}
