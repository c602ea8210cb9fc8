//! From bytes to a list of nodes.

ghost use Rattle.std.specs.Prelude.{◌≡◌, ◌≤◌, ◌<◌, [], length, IfOk, IfErr};
ghost use Rattle.simplicity.specs.Limits.{most_nodes};
ghost use Rattle.simplicity.specs.Spelling.{Spelled};
ghost use Rattle.spelling.specs.Reading as reading;
ghost use Rattle.bit_codec.specs.Answers.{Gives, Refuses};

use crate::node::read_node;
use crate::place::{is_hidden, test_place};
use crate::refusal::CodecRefusal;
use cell_bits::BitReader;
use std::alloc::Global;
use term_core::NodeList;

/// The most nodes that a program may have (L6).
pub const MOST_NODES: u64 = 1_048_576;

/// The list that the bytes spell. Fields are read and tested in their order: the number of nodes; of each node its
/// code, its distances, what it carries, and its place; then the root, and the padding.
///
/// # Errors
///
/// The first that is met, of each field before the next one is read; `EndOfBits` and `NaturalTooLarge` as of a reader.
pub fn read_program(alloc: Global, bytes: &[u8]) -> Result<NodeList, CodecRefusal>
    ensures spelled { IfOk result (λ nodes. Spelled bytes.now nodes) }
    ensures few { IfOk result (λ nodes. length nodes ≤ most_nodes) }
    ensures refused { IfErr result (λ refusal. Refuses refusal (reading.read_program bytes.now)) }
{
    let mut bits = BitReader::new(bytes);
    let count = read_count(&mut bits)?;
    let nodes = read_nodes(alloc, &mut bits, count)?;
    if is_hidden(&nodes, count - 1) {
        return Err(CodecRefusal::HiddenRoot);
    }
    bits.tail()?;
    Ok(nodes)
}

/// Reads the number of nodes.
fn read_count(bits: &mut BitReader) -> Result<usize, CodecRefusal>
    ensures reads { Gives (λ count. count) reading.read_count result bits.old bits.new }
    ensures some { IfOk result (λ count. 0 < count) }
    ensures few { IfOk result (λ count. count ≤ most_nodes) }
{
    let count = bits.natural()?;
    if count > MOST_NODES {
        return Err(CodecRefusal::TooManyNodes);
    }
    Ok(count as usize)
}

/// Reads so many nodes, each of which is tested before the next is read.
fn read_nodes(alloc: Global, bits: &mut BitReader, count: usize) -> Result<NodeList, CodecRefusal>
    ensures reads { Gives (λ nodes. nodes) (reading.read_nodes count []) result bits.old bits.new }
    ensures count { IfOk result (λ nodes. length nodes ≡ count) }
{
    let mut nodes = NodeList::new(alloc);
    for _index in 0..count {
        let node = read_node(bits, nodes.len())?;
        test_place(&nodes, &node)?;
        nodes.push(node)?;
    }
    Ok(nodes)
}
