//! From a list of nodes to its bytes.

ghost use Rattle.std.specs.Prelude.{◌≡◌, ◌<◌, ◌≤◌, ◌-◌, ◌^◌, ◌++◌, length, IfOk, OnOk};
ghost use Rattle.simplicity.specs.Nodes as node;
ghost use Rattle.simplicity.specs.Nodes.{AreUnder, HasRoot, children};
ghost use Rattle.simplicity.specs.Spelling.{node_bits, number_bits, byte_bits, natural, Spelled};
ghost use Rattle.simplicity.specs.Widths.{level_of};
ghost use Rattle.term_core.specs.Nodes.{node_of};

use cell_bits::BitWriter;
use std::alloc::{AllocError, Global};
use term_core::{ListNode, NodeList, word_level};
use word_math::Word;

/// The bytes of a program: the number of its nodes, the nodes, and fewer than eight zero bits.
pub fn write_program(alloc: Global, nodes: &NodeList) -> Result<Vec<u8>, AllocError>
    requires few { length nodes.now < 2 ^ 32 }
    requires rooted { HasRoot nodes.now }
    ensures { IfOk result (λ bytes. Spelled bytes.items nodes.now) }
{
    let mut writer = BitWriter::new(alloc);
    writer.push_natural(nodes.len() as u64)?;
    for (index, node) in nodes.as_slice().iter().enumerate() {
        write_node(&mut writer, index, node)?;
    }
    writer.finish()
}

/// Appends the bits of a node that stands at an index.
fn write_node(writer: &mut BitWriter, index: usize, node: &ListNode) -> Result<(), AllocError>
    requires few { index < 2 ^ 32 }
    requires children { AreUnder index (children (node_of node.now)) }
    ensures { OnOk result (writer.new ≡ writer.old ++ node_bits index (node_of node.now)) }
{
    match node {
        ListNode::Comp(left, right) => write_pair(writer, 0, index, *left, *right)?,
        ListNode::Case(left, right) => write_pair(writer, 1, index, *left, *right)?,
        ListNode::Pair(left, right) => write_pair(writer, 2, index, *left, *right)?,
        ListNode::Injl(child) => write_single(writer, 4, index, *child)?,
        ListNode::Injr(child) => write_single(writer, 5, index, *child)?,
        ListNode::Take(child) => write_single(writer, 6, index, *child)?,
        ListNode::Drop(child) => write_single(writer, 7, index, *child)?,
        ListNode::Iden => writer.push_number(8, 5)?,
        ListNode::Unit => writer.push_number(9, 5)?,
        ListNode::Fail(bytes) => write_bytes(writer, 10, 5, bytes.as_slice())?,
        ListNode::Hidden(bytes) => write_bytes(writer, 6, 4, bytes.as_slice())?,
        ListNode::Witness => writer.push_number(7, 4)?,
        ListNode::Word(word) => write_word(writer, word)?,
    }
    Ok(())
}

/// Appends a code of five bits and the distance to the child.
fn write_single(
    writer: &mut BitWriter,
    code: u64,
    index: usize,
    child: usize,
) -> Result<(), AllocError>
    requires code { code < 2 ^ 5 }
    requires few { index < 2 ^ 32 }
    requires before { child < index }
    ensures { OnOk result (writer.new ≡ writer.old ++ (number_bits 5 code ++ natural (index - child))) }
{
    writer.push_number(code, 5)?;
    write_child(writer, index, child)?;
    Ok(())
}

/// Appends a code of five bits and the distances to both children.
fn write_pair(
    writer: &mut BitWriter,
    code: u64,
    index: usize,
    left: usize,
    right: usize,
) -> Result<(), AllocError>
    requires code { code < 2 ^ 5 }
    requires few { index < 2 ^ 32 }
    requires left { left < index }
    requires right { right < index }
    ensures { OnOk result (writer.new ≡ writer.old
        ++ (number_bits 5 code ++ (natural (index - left) ++ natural (index - right)))) }
{
    writer.push_number(code, 5)?;
    write_child(writer, index, left)?;
    write_child(writer, index, right)?;
    Ok(())
}

/// Appends a code and the bits of bytes.
fn write_bytes(
    writer: &mut BitWriter,
    code: u64,
    width: u32,
    bytes: &[u8],
) -> Result<(), AllocError>
    requires narrow { width ≤ 64 }
    requires code { code < 2 ^ width }
    ensures { OnOk result (writer.new ≡ writer.old ++ (number_bits width code ++ byte_bits bytes.now)) }
{
    writer.push_number(code, width)?;
    for byte in bytes {
        writer.push_number(u64::from(*byte), 8)?;
    }
    Ok(())
}

/// Appends the code, the width and the bits of a word.
fn write_word(writer: &mut BitWriter, word: &Word) -> Result<(), AllocError>
    ensures { OnOk result (writer.new ≡ writer.old
        ++ node_bits 0 (node.Word (level_of word.now.width) word.now.number)) }
{
    writer.push_number(2, 2)?;
    writer.push_natural(u64::from(word_level(word)) + 1)?;
    for place in 0..word.width() {
        writer.push(word.bit(place))?;
    }
    Ok(())
}

/// Appends the distance from a node to its child.
fn write_child(writer: &mut BitWriter, index: usize, child: usize) -> Result<(), AllocError>
    requires few { index < 2 ^ 32 }
    requires before { child < index }
    ensures { OnOk result (writer.new ≡ writer.old ++ natural (index - child)) }
{
    writer.push_natural((index - child) as u64)?;
    Ok(())
}
