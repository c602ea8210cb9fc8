//! The left-first post-order of a list.

ghost use Rattle.std.specs.Prelude.{◌≡◌, ◌+◌, ◌<◌, [], ◌∷◌, ◌++◌, length, IfOk, OnOk};
ghost use Rattle.simplicity.specs.Nodes.{children};
ghost use Rattle.simplicity.specs.Order.{post_order};
ghost use Rattle.term_core.specs.Nodes.{node_of};
ghost use Rattle.share_order.specs.Steps.{taken, after, entries, load, step_load, AreWithin, place_of, Marks};

use std::alloc::{AllocError, Global};
use term_core::{ListNode, NodeList};

/// What is left to do on a walk.
#[derive(Clone, Copy)]
pub(crate) enum Step {
    /// Enters a node.
    Enter(usize),
    /// Ends a node whose children have ended.
    Leave(usize),
}

/// The nodes that the root reaches, in left-first post-order. The walk keeps a list of what is left to do.
pub fn post_order(alloc: Global, nodes: &NodeList) -> Result<Vec<usize>, AllocError>
    requires { 0 < length nodes.now }
    ensures { IfOk result (λ order. order.items ≡ post_order nodes.now) }
{
    let _placed = nodes.as_slice();
    let mut ended = vec![in alloc; false; nodes.len()]?;
    let mut order = Vec::new(alloc);
    let mut steps = Vec::new(alloc);
    steps.push(Step::Enter(nodes.len() - 1))?;
    while let Some(step) = steps.pop() {
        take_step(nodes, step, &mut steps, &mut ended, &mut order)?;
    }
    Ok(order)
}

/// Takes a step, which may leave more steps.
fn take_step(
    nodes: &NodeList,
    step: Step,
    steps: &mut Vec<Step>,
    ended: &mut Vec<bool>,
    order: &mut Vec<usize>,
) -> Result<(), AllocError>
    requires within { place_of step < length nodes.now }
    requires steps { AreWithin (length nodes.now) steps.old.items }
    requires marks { Marks (length nodes.now) ended.old.items order.old.items }
    ensures after { IfOk result (λ _. after nodes.now steps.new.items order.new.items
        ≡ after nodes.now steps.old.items (taken nodes.now step order.old.items)) }
    ensures less { IfOk result (λ _. load steps.new.items < step_load step + load steps.old.items) }
    ensures steps { IfOk result (λ _. AreWithin (length nodes.now) steps.new.items) }
    ensures marks { IfOk result (λ _. Marks (length nodes.now) ended.new.items order.new.items) }
{
    let _placed = nodes.as_slice();
    match step {
        Step::Enter(node) => {
            if !ended[node] {
                steps.push(Step::Leave(node))?;
                enter_children(nodes.get(node), steps)?;
            }
        }
        Step::Leave(node) => {
            ended[node] = true;
            order.push(node)?;
        }
    }
    Ok(())
}

/// Leaves the steps that enter a node's children, the first of them last.
fn enter_children(node: &ListNode, steps: &mut Vec<Step>) -> Result<(), AllocError>
    ensures { OnOk result (steps.new.items ≡ steps.old.items ++ entries (children (node_of node.now))) }
{
    match node {
        ListNode::Injl(child)
        | ListNode::Injr(child)
        | ListNode::Take(child)
        | ListNode::Drop(child) => {
            steps.push(Step::Enter(*child))?;
        }
        ListNode::Comp(left, right) | ListNode::Case(left, right) | ListNode::Pair(left, right) => {
            steps.push(Step::Enter(*right))?;
            steps.push(Step::Enter(*left))?;
        }
        _ => {}
    }
    Ok(())
}
