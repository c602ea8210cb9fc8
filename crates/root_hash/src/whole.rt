//! The roots of the nodes of a list.

ghost use Rattle.std.specs.Prelude.{◌≡◌, IfOk};
ghost use Rattle.simplicity.specs.Roots as spec;

use crate::list::Roots;
use crate::node::node_root;
use std::alloc::{AllocError, Global};
use term_core::NodeList;

/// The root of each node's tree, in the order of the list; a hidden node's bytes stand for its root.
///
/// No type and no witness value goes into a root.
pub fn roots(alloc: Global, nodes: &NodeList) -> Result<Roots, AllocError>
    ensures { IfOk result (λ roots. roots ≡ spec.roots nodes.now) }
{
    let mut roots = Roots::new(alloc);
    for node in nodes.as_slice() {
        let root = node_root(node, roots.as_slice());
        roots.push(root)?;
    }
    Ok(roots)
}
