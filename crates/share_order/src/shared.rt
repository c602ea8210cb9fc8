//! Whether no two nodes of a list are equal.

ghost use Rattle.std.specs.Prelude.{◌≡◌, length, OnOk, IfErr};
ghost use Rattle.simplicity.specs.Shared.{IsShared};
ghost use Rattle.infer_cells.specs.Typings.{typing_in, AreBelowBound};
ghost use Rattle.share_order.specs.Refusals.{RefusesShared};

use crate::classes::NodeKey;
use crate::refusal::OrderRefusal;
use crate::tell::tell_apart;
use indexmap::IndexSet;
use infer_cells::Typing;
use std::alloc::Global;
use term_core::NodeList;
use type_table::TypeTable;

/// Whether no two nodes other than witnesses are equal in kind, in what they carry, in their children and in their
/// arrow. The typing has an arrow for each node, of the types of the table, and none for a hidden node.
///
/// `NotShared` comes exactly where two are, with the least second one and the first node that it is equal to.
pub fn check_shared(
    alloc: Global,
    nodes: &NodeList,
    typing: &Typing,
    types: &TypeTable,
) -> Result<(), OrderRefusal>
    requires count { length typing.now ≡ length nodes.now }
    requires there { AreBelowBound (length types.now) typing.now }
    ensures ok { OnOk result (IsShared nodes.now (typing_in types.now typing.now)) }
    ensures refused { IfErr result (RefusesShared nodes.now (typing_in types.now typing.now)) }
{
    tell_apart(typing, types);
    let mut keys = IndexSet::new(alloc);
    for index in 0..nodes.len() {
        let key = NodeKey::new(*nodes.get(index), *typing.get(index), index);
        let (place, _) = keys.insert_full(key)?;
        if place < index {
            return Err(OrderRefusal::NotShared {
                first: place,
                second: index,
            });
        }
    }
    Ok(())
}
