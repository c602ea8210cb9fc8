//! That a table of types tells the arrows of a typing apart.

ghost use Rattle.std.specs.Prelude.{length};
ghost use Rattle.infer_cells.specs.Typings.{AreBelowBound};
ghost use Rattle.share_order.specs.Told.{AreTold};

use infer_cells::Typing;
use type_table::TypeTable;

/// Arrows of a typing that mean one arrow are equal, since ids that mean one type are. The table says so of any of its ids.
pub(crate) fn tell_apart(typing: &Typing, types: &TypeTable)
    requires { AreBelowBound (length types.now) typing.now }
    ensures { AreTold types.now typing.now }
{
    for index in 0..typing.len() {
        match typing.get(index) {
            Some(arrow) => {
                let _shape = types.shape(arrow.source);
                return;
            }
            None => {}
        }
    }
}
