//! From bits to a node.

ghost use Rattle.std.specs.Prelude.{◌≡◌, ◌+◌, ◌*◌, ◌^◌, ◌≤◌, ◌<◌, ℕ, true, false, [], ◌∷◌, length, IfOk};
ghost use Rattle.spelling.specs.Reading as reading;
ghost use Rattle.bit_codec.specs.Answers.{Gives, Behind};
ghost use Rattle.term_core.specs.Nodes.{node_of};

use crate::refusal::CodecRefusal;
use cell_bits::BitReader;
use term_core::ListNode;
use word_math::Word;

/// Reads the node that stands at an index. After an error the reader may stand anywhere.
pub(crate) fn read_node(bits: &mut BitReader, index: usize) -> Result<ListNode, CodecRefusal>
    ensures { Gives node_of (reading.read_node index) result bits.old bits.new }
{
    let start = bits.at();
    if bits.bit()? {
        if bits.bit()? {
            return Err(CodecRefusal::JetCode { at: start });
        }
        return read_word(bits, index);
    }
    if bits.bit()? {
        read_leaf(bits, index, start)
    } else {
        read_parent(bits, index, start)
    }
}

/// Reads the rest of a node whose code begins with 00, which has children.
fn read_parent(bits: &mut BitReader, index: usize, start: u128) -> Result<ListNode, CodecRefusal>
    requires { bits.old.at ≡ start + 2 }
    ensures { Gives node_of (Behind (reading.read_node index) start (false ∷ false ∷ [])) result bits.old bits.new }
{
    let code = bits.number(3)?;
    if code == 3 {
        return Err(CodecRefusal::Disconnect { at: start });
    }
    let first = read_child(bits, index)?;
    match code {
        0 => Ok(ListNode::Comp(first, read_child(bits, index)?)),
        1 => Ok(ListNode::Case(first, read_child(bits, index)?)),
        2 => Ok(ListNode::Pair(first, read_child(bits, index)?)),
        4 => Ok(ListNode::Injl(first)),
        5 => Ok(ListNode::Injr(first)),
        6 => Ok(ListNode::Take(first)),
        _ => Ok(ListNode::Drop(first)),
    }
}

/// Reads the rest of a node whose code begins with 01, which has none.
fn read_leaf(bits: &mut BitReader, index: usize, start: u128) -> Result<ListNode, CodecRefusal>
    requires { bits.old.at ≡ start + 2 }
    ensures { Gives node_of (Behind (reading.read_node index) start (false ∷ true ∷ [])) result bits.old bits.new }
{
    if bits.bit()? {
        if bits.bit()? {
            return Ok(ListNode::Witness);
        }
        let mut root = [0; 32];
        fill(bits, &mut root)?;
        return Ok(ListNode::Hidden(root));
    }
    match bits.number(2)? {
        0 => Ok(ListNode::Iden),
        1 => Ok(ListNode::Unit),
        2 => {
            let mut entropy = [0; 64];
            fill(bits, &mut entropy)?;
            Ok(ListNode::Fail(entropy))
        }
        _ => Err(CodecRefusal::Reserved { at: start }),
    }
}

/// Reads the distance from the node at an index to its child, and gives the child's index.
fn read_child(bits: &mut BitReader, index: usize) -> Result<usize, CodecRefusal>
    ensures { Gives (λ child. child) (reading.read_child index) result bits.old bits.new }
{
    let distance = bits.natural()?;
    if distance > index as u64 {
        return Err(CodecRefusal::BadDistance { node: index });
    }
    Ok(index - distance as usize)
}

/// Reads as many bytes as there is room for.
fn fill(bits: &mut BitReader, bytes: &mut [u8]) -> Result<(), CodecRefusal>
    ensures reads { Gives (λ _. bytes.new) (reading.read_bytes (length bytes.old)) result bits.old bits.new }
    ensures room { length bytes.new ≡ length bytes.old }
{
    for place in 0..bytes.len() {
        bytes[place] = bits.number(8)? as u8;
    }
    Ok(())
}

/// Reads the rest of a word, behind its code: its level and its bits.
fn read_word(bits: &mut BitReader, index: usize) -> Result<ListNode, CodecRefusal>
    ensures { Gives node_of (reading.read_word index) result bits.old bits.new }
{
    let level = read_level(bits, index)?;
    let width = 1u16 << level;
    let (high, low) = read_halves(bits, width)?;
    match Word::new(width, high, low) {
        Some(word) => Ok(ListNode::Word(word)),
        None => unreachable!(),
    }
}

/// Reads the level of a word, of at most 2^8 bits.
fn read_level(bits: &mut BitReader, index: usize) -> Result<u32, CodecRefusal>
    ensures reads { Gives (λ level. level) (reading.read_level index) result bits.old bits.new }
    ensures small { IfOk result (λ level. level ≤ 8) }
{
    let level = bits.natural()? - 1;
    if level > 8 {
        return Err(CodecRefusal::WordTooWide { node: index });
    }
    Ok(level as u32)
}

/// Reads a number of at most 256 bits, as the bits before its last 128 and these.
fn read_halves(bits: &mut BitReader, width: u16) -> Result<(u128, u128), CodecRefusal>
    requires { width ≤ 256 }
    ensures { Gives (λ halves. halves.0 * 2 ^ 128 + halves.1) (reading.number width) result bits.old bits.new }
{
    if width <= 128 {
        return Ok((0, read_half(bits, width)?));
    }
    let high = read_half(bits, width - 128)?;
    Ok((high, read_half(bits, 128)?))
}

/// Reads a number of at most 128 bits.
fn read_half(bits: &mut BitReader, width: u16) -> Result<u128, CodecRefusal>
    requires { width ≤ 128 }
    ensures { Gives (λ half. half) (reading.number width) result bits.old bits.new }
{
    let mut half = 0;
    for _left in (0..width).rev() {
        half = half * 2 + u128::from(bits.bit()?);
    }
    Ok(half)
}
