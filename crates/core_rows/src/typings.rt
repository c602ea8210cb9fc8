//! Lists and their least typings.

ghost use Rattle.std.specs.Prelude.{IfOk};
ghost use Rattle.simplicity.specs.Nodes.{HasRoot};

use infer_cells::{InferRefusal, NodeArrow, infer};
use std::alloc::{AllocError, Global};
use std::test::Fail;
use term_core::{ListNode, NodeList};
use type_table::TypeTable;

#[test]
fn refuses_a_type_within_itself(rt: HostRuntime) -> Result<(), Fail> {
    let mut types = TypeTable::new(rt.alloc());
    let unit = types.unit()?;
    let mut nodes = NodeList::new(rt.alloc());
    nodes.push(ListNode::Witness)?;
    nodes.push(ListNode::Iden)?;
    nodes.push(ListNode::Take(1))?;
    nodes.push(ListNode::Pair(1, 2))?;
    nodes.push(ListNode::Comp(0, 3))?;
    nodes.push(ListNode::Unit)?;
    nodes.push(ListNode::Comp(4, 5))?;
    let answer = infer(rt.alloc(), &nodes, unit, unit, &mut types).map(|typing| typing.len());
    assert_eq!(rt; answer, Err(InferRefusal::NoTyping));
    Ok(())
}

#[test]
fn refuses_a_unit_as_a_bit(rt: HostRuntime) -> Result<(), Fail> {
    let mut types = TypeTable::new(rt.alloc());
    let unit = types.unit()?;
    let bit = types.sum(unit, unit)?;
    let mut nodes = NodeList::new(rt.alloc());
    nodes.push(ListNode::Unit)?;
    let answer = infer(rt.alloc(), &nodes, unit, bit, &mut types).map(|typing| typing.len());
    assert_eq!(rt; answer, Err(InferRefusal::NoTyping));
    Ok(())
}

#[test]
fn gives_a_witness_the_least_type(rt: HostRuntime) -> Result<(), Fail> {
    let mut types = TypeTable::new(rt.alloc());
    let unit = types.unit()?;
    let bit = types.sum(unit, unit)?;
    let pair = types.product(bit, unit)?;
    let mut nodes = NodeList::new(rt.alloc());
    nodes.push(ListNode::Witness)?;
    nodes.push(ListNode::Iden)?;
    nodes.push(ListNode::Take(1))?;
    nodes.push(ListNode::Comp(0, 2))?;
    let typing = infer(rt.alloc(), &nodes, unit, bit, &mut types)?;
    assert_eq!(rt; typing.len(), 4);
    let want = NodeArrow {
        source: unit,
        target: pair,
    };
    assert_eq!(rt; *typing.get(0), Some(want));
    Ok(())
}

/// An identity, so many nodes that each pair the one before with itself, and what drops the result.
fn pairs(alloc: Global, count: usize) -> Result<NodeList, AllocError>
    ensures { IfOk result (λ nodes. HasRoot nodes) }
{
    let mut nodes = NodeList::new(alloc);
    nodes.push(ListNode::Iden)?;
    for at in 0..count {
        nodes.push(ListNode::Pair(at, at))?;
    }
    nodes.push(ListNode::Unit)?;
    let unit = nodes.len() - 1;
    nodes.push(ListNode::Comp(count, unit))?;
    Ok(nodes)
}

#[test]
fn takes_a_type_within_the_limit(rt: HostRuntime) -> Result<(), Fail> {
    let mut types = TypeTable::new(rt.alloc());
    let unit = types.unit()?;
    let nodes = pairs(rt.alloc(), 21)?;
    let answer = infer(rt.alloc(), &nodes, unit, unit, &mut types).map(|typing| typing.len());
    assert_eq!(rt; answer, Ok(24));
    Ok(())
}

#[test]
fn refuses_a_type_above_the_limit(rt: HostRuntime) -> Result<(), Fail> {
    let mut types = TypeTable::new(rt.alloc());
    let unit = types.unit()?;
    let nodes = pairs(rt.alloc(), 22)?;
    let answer = infer(rt.alloc(), &nodes, unit, unit, &mut types).map(|typing| typing.len());
    assert_eq!(rt; answer, Err(InferRefusal::TypeTooLarge));
    Ok(())
}
