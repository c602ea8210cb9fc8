//! Bytes of small programs.

use bit_codec::write_program;
use std::test::Fail;
use term_core::{ListNode, NodeList};
use word_math::Word;

#[test]
fn spells_small_programs(rt: HostRuntime) -> Result<(), Fail> {
    let mut nodes = NodeList::new(rt.alloc());
    nodes.push(ListNode::Iden)?;
    let bytes = write_program(rt.alloc(), &nodes)?;
    assert_eq!(rt; bytes.as_slice(), [0x20].as_slice());
    nodes.push(ListNode::Drop(0))?;
    let bytes = write_program(rt.alloc(), &nodes)?;
    assert_eq!(rt; bytes.as_slice(), [0x88, 0x38].as_slice());
    nodes.push(ListNode::Take(0))?;
    nodes.push(ListNode::Pair(1, 2))?;
    let bytes = write_program(rt.alloc(), &nodes)?;
    assert_eq!(rt; bytes.as_slice(), [0xC1, 0x07, 0x1A, 0x0A, 0x00].as_slice());
    Ok(())
}

#[test]
fn spells_a_word(rt: HostRuntime) -> Result<(), Fail> {
    let mut nodes = NodeList::new(rt.alloc());
    nodes.push(ListNode::Unit)?;
    let five = Word::new(8, 0, 5).ok_or("no word")?;
    nodes.push(ListNode::Word(five))?;
    nodes.push(ListNode::Comp(0, 1))?;
    let bytes = write_program(rt.alloc(), &nodes)?;
    assert_eq!(rt; bytes.as_slice(), [0xA9, 0xB0, 0x05, 0x04, 0x00].as_slice());
    Ok(())
}
