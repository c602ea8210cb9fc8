//! Lists of nodes, and the tables of types and of terms.

use core_data::{CoreValue, has_type};
use std::test::Fail;
use term_core::{ListNode, Node, NodeList, TermTable};
use type_table::{MOST_WEIGHT, TypeTable};

#[test]
fn numbers_nodes(rt: HostRuntime) -> Result<(), Fail> {
    let mut types = TypeTable::new(rt.alloc());
    let unit = types.unit()?;
    let mut table = TermTable::new(rt.alloc());
    let first = table.add(Node::Iden, unit, unit, &types)?;
    let second = table.add(Node::Comp(first, first), unit, unit, &types)?;
    assert_eq!(rt; table.len(), 2);
    assert_eq!(rt; table.node(second), Node::Comp(first, first));
    assert_eq!(rt; table.arrow(first), (unit, unit));
    Ok(())
}

#[test]
fn keeps_its_nodes(rt: HostRuntime) -> Result<(), Fail> {
    let mut list = NodeList::new(rt.alloc());
    list.push(ListNode::Iden)?;
    list.push(ListNode::Drop(0))?;
    assert_eq!(rt; list.len(), 2);
    assert_eq!(rt; *list.get(1), ListNode::Drop(0));
    assert_eq!(rt;
        list.as_slice(),
        [ListNode::Iden, ListNode::Drop(0)].as_slice()
    );
    Ok(())
}

#[test]
#[tactic(auto, using(type_table::proofs::Growth::grown_length))]
fn numbers_types(rt: HostRuntime) -> Result<(), Fail> {
    let mut types = TypeTable::new(rt.alloc());
    let unit = types.unit()?;
    let bit = types.sum(unit, unit)?;
    let kind = types.product(bit, unit)?;
    assert_eq!(rt; types.word(1)?, bit);
    assert_eq!(rt; types.size(kind), 1);
    assert!(rt; types.weight(kind) <= MOST_WEIGHT);
    let tree = types.tree(rt.alloc(), kind)?;
    let one = Box::new(rt.alloc(), CoreValue::Unit)?;
    let bit = Box::new(rt.alloc(), CoreValue::Right(one))?;
    let rest = Box::new(rt.alloc(), CoreValue::Unit)?;
    assert!(rt; has_type(&CoreValue::Pair(bit, rest), &tree));
    Ok(())
}
