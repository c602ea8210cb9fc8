//! What is bound at once, and paths through several of these.

ghost use Rattle.std.specs.Prelude.{◌≡◌, map, reverse, None, IfOk};
ghost use Rattle.scope_layout.specs.Layers.{layer_of, layer_path, within};

use crate::layout::WitnessNames;
use crate::names::{to_variable, to_witness};
use crate::path::{Route, Step, drop_layers};
use hl_syntax::{HlType, Pattern};
use std::alloc::{AllocError, Global};

/// What a name is asked for as: variables and witnesses don't hide each other.
#[derive(Clone, Copy, Debug, PartialEq, Eq)]
pub enum Sort {
    Variable,
    Witness,
}

/// What is bound at once.
#[derive(Clone, Copy, Drop)]
pub(crate) enum Bound<'a> {
    /// The names of a pattern at a type.
    Names(&'a Pattern, &'a HlType),
    /// Witnesses, as a tuple.
    Witnesses(&'a WitnessNames),
}

/// The path to a name in what is bound at once.
pub(crate) fn to_bound(
    alloc: Global,
    bound: &Bound,
    sort: Sort,
    name: &str,
) -> Result<Option<Route>, AllocError>
    ensures { IfOk result (λ found. found ≡ layer_path sort name.now (layer_of bound.now)) }
{
    match (sort, bound) {
        (Sort::Variable, Bound::Names(pattern, _)) => to_variable(alloc, pattern, name),
        (Sort::Witness, Bound::Witnesses(witnesses)) => to_witness(alloc, witnesses, name),
        (Sort::Variable, Bound::Witnesses(_)) | (Sort::Witness, Bound::Names(_, _)) => Ok(None),
    }
}

/// The path to a name in what was bound since a scope began, the innermost of which stands last.
pub(crate) fn to_layer(
    alloc: Global,
    layers: &[Bound],
    sort: Sort,
    name: &str,
) -> Result<Option<Route>, AllocError>
    ensures { IfOk result (λ found.
        found ≡ within (map (layer_path sort name.now) (reverse (map layer_of layers.now))) None) }
{
    'layers: for depth in 0..layers.len() {
        let layer = &layers[layers.len() - 1 - depth];
        if let Some(mut route) = to_bound(alloc, layer, sort, name)? {
            route.precede(Step::Take)?;
            drop_layers(&mut route, depth)?;
            return Ok(Some(route));
        }
    }
    Ok(None)
}
