//! Whether a list stands in its order.

ghost use Rattle.std.specs.Prelude.{◌≡◌, OnOk, IfErr, true, false, Some, slice_get};
ghost use Rattle.simplicity.specs.Order.{IsOrdered};
ghost use Rattle.share_order.specs.Refusals.{RefusesOrder};

use crate::refusal::OrderRefusal;
use crate::walk::post_order;
use std::alloc::Global;
use term_core::NodeList;

/// Whether a list is the left-first post-order of its root.
///
/// `NotCanonical` comes exactly where it isn't, and names the first node that isn't in its place.
pub fn check_order(alloc: Global, nodes: &NodeList) -> Result<(), OrderRefusal>
    ensures ok { OnOk result (IsOrdered nodes.now) }
    ensures refused { IfErr result (RefusesOrder nodes.now) }
{
    let _placed = nodes.as_slice();
    if nodes.len() == 0 {
        return Ok(());
    }
    let order = post_order(alloc, nodes)?;
    for node in 0..nodes.len() {
        if !stands(order.as_slice(), node) {
            return Err(OrderRefusal::NotCanonical { node });
        }
    }
    Ok(())
}

/// Whether a number stands at its own place.
fn stands(order: &[usize], node: usize) -> bool
    ensures yes { result ≡ true → slice_get order.now node ≡ Some node }
    ensures not_there { result ≡ false → slice_get order.now node ≡ Some node → ⊥ }
{
    node < order.len() && order[node] == node
}
