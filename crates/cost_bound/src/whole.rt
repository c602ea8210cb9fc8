//! The bounds of a list.

ghost use Rattle.std.specs.Prelude.{◌≡◌, ◌<◌, length, map, option_map, slice_get, IfOk};
ghost use Rattle.simplicity.specs.Bounds as spec;
ghost use Rattle.simplicity.specs.Bounds.{stated};
ghost use Rattle.simplicity.specs.Limits.{most_weight};
ghost use Rattle.simplicity.specs.Types.{size};
ghost use Rattle.simplicity.specs.Typing.{IsEntryLight, IsLight, arrow_of};
ghost use Rattle.infer_cells.specs.Typings.{arrow_in, typing_in, IsBelowBound, AreBelowBound};
ghost use Rattle.term_core.specs.Nodes.{node_of};
ghost use Rattle.cost_bound.specs.Numbers.{numbers, entry_of, entries_of, stated_entries, AreWorks};

use crate::bound::Bounds;
use crate::node::{arrow_at, entry_at, node_bounds};
use crate::writing::extend_works;
use infer_cells::{NodeArrow, Typing};
use std::alloc::{AllocError, Global};
use term_core::{ListNode, NodeList};
use type_table::TypeTable;

/// The bounds of a run of the list, whatever its input and its witness are: each 2^64 - 1 where it would be more.
/// One pass over the list; no type of the typing has more than 4,194,304 nodes.
pub fn bounds(
    alloc: Global,
    nodes: &NodeList,
    typing: &Typing,
    types: &TypeTable,
) -> Result<Bounds, AllocError>
    requires there { AreBelowBound (length types.now) typing.now }
    requires light { IsLight most_weight (typing_in types.now typing.now) }
    ensures { IfOk result (λ found. numbers found
        ≡ stated (spec.bounds nodes.now (typing_in types.now typing.now))) }
{
    let entries = list_bounds(alloc, nodes, typing, types)?;
    let root = nodes.len().saturating_sub(1);
    let bounds = entry_at(entries.as_slice(), root);
    let (source, target) = root_sizes(root, typing, types);
    Ok(bounds.with_frames(source, target))
}

/// The cells of the root's source and target.
fn root_sizes(root: usize, typing: &Typing, types: &TypeTable) -> (u64, u64)
    requires there { AreBelowBound (length types.now) typing.now }
    requires light { IsLight most_weight (typing_in types.now typing.now) }
    ensures source { result.0 ≡ size (arrow_of (slice_get (typing_in types.now typing.now) root)).source }
    ensures target { result.1 ≡ size (arrow_of (slice_get (typing_in types.now typing.now) root)).target }
{
    match arrow_at(typing, root) {
        Some(arrow) => (types.size(arrow.source), types.size(arrow.target)),
        None => (0, 0),
    }
}

/// The bounds of each node, and none for a hidden one.
fn list_bounds(
    alloc: Global,
    nodes: &NodeList,
    typing: &Typing,
    types: &TypeTable,
) -> Result<Vec<Option<Bounds>>, AllocError>
    requires there { AreBelowBound (length types.now) typing.now }
    requires light { IsLight most_weight (typing_in types.now typing.now) }
    ensures { IfOk result (λ entries. entries_of entries.items
        ≡ stated_entries (spec.node_list_bounds nodes.now (typing_in types.now typing.now))) }
{
    let mut works = Vec::new(alloc);
    let mut entries = Vec::new(alloc);
    let count = nodes.len().min(typing.len());
    for place in 0..count {
        let entry = entry_bounds(
            nodes.get(place),
            typing.get(place),
            entries.as_slice(),
            &mut works,
            typing,
            types,
        )?;
        entries.push(entry)?;
    }
    Ok(entries)
}

/// The bounds of a node, or none where it is hidden; the works of writing values reach up to its target after it.
fn entry_bounds(
    node: &ListNode,
    entry: &Option<NodeArrow>,
    entries: &[Option<Bounds>],
    works: &mut Vec<u64>,
    typing: &Typing,
    types: &TypeTable,
) -> Result<Option<Bounds>, AllocError>
    requires arrow { IsBelowBound (length types.now) entry.now }
    requires light { IsEntryLight most_weight (arrow_in types.now entry.now) }
    requires works { AreWorks types.now works.old.items }
    requires typing { AreBelowBound (length types.now) typing.now }
    requires lights { IsLight most_weight (typing_in types.now typing.now) }
    ensures works { IfOk result (λ _. AreWorks types.now works.new.items) }
    ensures entry { IfOk result (λ bounds. entry_of bounds ≡ option_map stated
        (spec.entry_bounds (typing_in types.now typing.now) (entries_of entries.now)
        (node_of node.now) (arrow_in types.now entry.now))) }
{
    match entry {
        None => Ok(None),
        Some(arrow) => {
            extend_works(works, arrow.target, types)?;
            Ok(Some(node_bounds(node, arrow, entries, works.as_slice(), typing, types)))
        }
    }
}
