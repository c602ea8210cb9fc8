//! The nodes that a list's root reaches.

ghost use Rattle.std.specs.Prelude.{◌≡◌, ◌<◌, length, IfOk};
ghost use Rattle.simplicity.specs.Order as spec;
ghost use Rattle.simplicity.specs.Pruning.{gathered};

use crate::rename::renamed;
use std::alloc::{AllocError, Global};
use term_core::NodeList;

/// The nodes that the root reaches, in their order, which is the left-first post-order.
pub fn gather(alloc: Global, nodes: &NodeList, order: &[usize]) -> Result<NodeList, AllocError>
    requires full { 0 < length nodes.now }
    requires order { order.now ≡ spec.post_order nodes.now }
    ensures { IfOk result (λ list. list ≡ gathered nodes.now) }
{
    let _placed = nodes.as_slice();
    let mut places = vec![in alloc; 0; nodes.len()]?;
    let mut list = NodeList::new(alloc);
    for index in 0..order.len() {
        let node = order[index];
        list.push(renamed(nodes.get(node), places.as_slice()))?;
        places[node] = index;
    }
    Ok(list)
}
