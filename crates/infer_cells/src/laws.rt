//! Laws of typings: the contract of each function below is a law.

ghost use Rattle.infer_cells.specs.Shrunk.{ShrinkLaw, LeastChangesNothing};

use simplicity::{meaning_keeps_law, shrink_keeps_law, trees_are_typed_law};

/// Under lower types a list gives, on values shrunk to them, the shrunk value, and fails exactly where it fails.
pub fn lower_types_shrink_results()
    ensures { ShrinkLaw }
{
    trees_are_typed_law();
    shrink_keeps_law();
}

/// The least types with an arrow at the root change no result.
pub fn least_types_change_no_result()
    ensures { LeastChangesNothing }
{
    trees_are_typed_law();
    shrink_keeps_law();
    meaning_keeps_law();
}
