//! Bounds of worked programs.

ghost use Rattle.std.specs.Prelude.{◌<◌, length, IfOk};
ghost use Rattle.simplicity.specs.Nodes.{HasRoot};

use cost_bound::{Bounds, bounds};
use infer_cells::infer;
use std::alloc::{AllocError, Global};
use std::test::Fail;
use term_core::{ListNode, NodeList};
use type_table::{TypeId, TypeTable};
use word_math::Word;

/// The bounds of a list under its least typing.
fn bounds_of(
    alloc: Global,
    nodes: &NodeList,
    source: TypeId,
    target: TypeId,
    types: &mut TypeTable,
) -> Result<Bounds, Fail>
    requires rooted { HasRoot nodes.now }
    requires source { source < length types.old }
    requires target { target < length types.old }
{
    let typing = infer(alloc, nodes, source, target, types)?;
    Ok(bounds(alloc, nodes, &typing, types)?)
}

/// The function of a number that calls the one before it twice, where the first gives back its argument.
fn chain(alloc: Global, levels: usize) -> Result<NodeList, AllocError>
    requires { levels < 1000 }
    ensures { IfOk result (λ nodes. HasRoot nodes) }
{
    let mut nodes = NodeList::new(alloc);
    nodes.push(ListNode::Iden)?;
    for level in 0..levels {
        nodes.push(ListNode::Comp(0, 2 * level))?;
        nodes.push(ListNode::Comp(2 * level + 1, 2 * level))?;
    }
    Ok(nodes)
}

#[test]
fn bounds_of_a_swap(rt: HostRuntime) -> Result<(), Fail> {
    let mut types = TypeTable::new(rt.alloc());
    let bytes = types.word(16)?;
    let mut nodes = NodeList::new(rt.alloc());
    nodes.push(ListNode::Iden)?;
    nodes.push(ListNode::Drop(0))?;
    nodes.push(ListNode::Take(0))?;
    nodes.push(ListNode::Pair(1, 2))?;
    let found = bounds_of(rt.alloc(), &nodes, bytes, bytes, &mut types)?;
    let want = Bounds {
        work: 20,
        cells: 32,
        frames: 2,
        depth: 3,
    };
    assert_eq!(rt; found, want);
    Ok(())
}

#[test]
fn bounds_of_a_byte(rt: HostRuntime) -> Result<(), Fail> {
    let mut types = TypeTable::new(rt.alloc());
    let unit = types.unit()?;
    let byte = types.word(8)?;
    let mut nodes = NodeList::new(rt.alloc());
    nodes.push(ListNode::Unit)?;
    if let Some(word) = Word::new(8, 0, 5) {
        nodes.push(ListNode::Word(word))?;
    }
    assert_eq!(rt; nodes.len(), 2);
    nodes.push(ListNode::Comp(0, 1))?;
    let found = bounds_of(rt.alloc(), &nodes, unit, byte, &mut types)?;
    let want = Bounds {
        work: 20,
        cells: 8,
        frames: 3,
        depth: 2,
    };
    assert_eq!(rt; found, want);
    Ok(())
}

#[test]
fn bounds_of_chains(rt: HostRuntime) -> Result<(), Fail> {
    let rows: [(usize, u64, u64, u64); 4] = [
        (0, 65, 128, 2),
        (23, 2_214_592_313, 3072, 48),
        (24, 4_429_184_825, 3200, 50),
        (80, 18_446_744_073_709_551_615, 10_368, 162),
    ];
    for (levels, work, cells, frames) in rows {
        assert!(rt; levels < 1000);
        let mut types = TypeTable::new(rt.alloc());
        let word = types.word(64)?;
        let nodes = chain(rt.alloc(), levels)?;
        let found = bounds_of(rt.alloc(), &nodes, word, word, &mut types)?;
        assert_eq!(rt;
            (found.work, found.cells, found.frames),
            (work, cells, frames)
        );
        assert_eq!(rt; found.depth, frames - 1);
    }
    Ok(())
}
