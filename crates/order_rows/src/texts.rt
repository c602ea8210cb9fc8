//! Lists of nodes as short texts: a word for each node, of a letter for its kind and the place of each child, which is
//! a digit or, from ten on, a small letter. So `u r0 p10` is a unit, its right injection, and the pair of the second
//! with the first. All hidden nodes are one, and so are all words, the byte 9.

ghost use Rattle.std.specs.Prelude.{◌≡◌, slice_get, true};
ghost use Rattle.simplicity.specs.Nodes.{CanFollow, HasRoot, IsShown};
ghost use Rattle.term_core.specs.Nodes.{node_of};

use std::alloc::{AllocError, Global};
use term_core::{ListNode, NodeList};
use word_math::Word;

/// The place that a digit or a small letter stands for.
pub fn place(digit: u8) -> usize {
    match char::from(digit).to_digit(36) {
        Some(place) => place as usize,
        None => usize::MAX,
    }
}

/// The node that a word stands for.
fn node(word: &str) -> Option<ListNode> {
    let node = match word.as_bytes() {
        [b'i'] => ListNode::Iden,
        [b'u'] => ListNode::Unit,
        [b'w'] => ListNode::Witness,
        [b'h'] => ListNode::Hidden([7; 32]),
        [b'b'] => ListNode::Word(Word::new(8, 0, 9)?),
        [b'l', child] => ListNode::Injl(place(*child)),
        [b'r', child] => ListNode::Injr(place(*child)),
        [b't', child] => ListNode::Take(place(*child)),
        [b'd', child] => ListNode::Drop(place(*child)),
        [b';', left, right] => ListNode::Comp(place(*left), place(*right)),
        [b'c', left, right] => ListNode::Case(place(*left), place(*right)),
        [b'p', left, right] => ListNode::Pair(place(*left), place(*right)),
        _ => return None,
    };
    Some(node)
}

/// Whether there is a node at a place, and it isn't hidden.
fn is_shown(list: &NodeList, place: usize) -> bool
    ensures { result ≡ true → IsShown (slice_get list.now place) }
{
    place < list.len() && !matches!(list.get(place), ListNode::Hidden(_))
}

/// Whether a node may follow those of a list.
pub fn may_follow(list: &NodeList, node: &ListNode) -> bool
    ensures { result ≡ true → CanFollow list.now (node_of node.now) }
{
    match node {
        ListNode::Injl(child) => is_shown(list, *child),
        ListNode::Injr(child) => is_shown(list, *child),
        ListNode::Take(child) => is_shown(list, *child),
        ListNode::Drop(child) => is_shown(list, *child),
        ListNode::Comp(left, right) => is_shown(list, *left) && is_shown(list, *right),
        ListNode::Pair(left, right) => is_shown(list, *left) && is_shown(list, *right),
        ListNode::Case(left, right) => {
            *left < list.len()
                && *right < list.len()
                && (is_shown(list, *left) || is_shown(list, *right))
        }
        _ => true,
    }
}

/// Whether the last node is there and isn't hidden.
pub fn has_root(list: &NodeList) -> bool
    ensures { result ≡ true → HasRoot list.now }
{
    let count = list.len();
    count > 0 && is_shown(list, count - 1)
}

/// The list that a text stands for, up to the first node that can't stand where it does.
pub fn list(alloc: Global, text: &str) -> Result<NodeList, AllocError> {
    let mut list = NodeList::new(alloc);
    for word in text.split(' ') {
        match node(word) {
            Some(node) if may_follow(&list, &node) => list.push(node)?,
            _ => break,
        }
    }
    Ok(list)
}

/// Whether a list is the one that a text stands for.
pub fn is_written(list: &NodeList, text: &str) -> bool {
    let mut words = text.split(' ');
    for stands in list.as_slice() {
        if words.next().and_then(node) != Some(*stands) {
            return false;
        }
    }
    words.next().is_none()
}

/// Whether numbers are the places that a text has the digits of.
pub fn are_written(numbers: &[usize], text: &str) -> bool {
    let digits = text.as_bytes();
    for (index, digit) in digits.iter().enumerate() {
        if numbers.get(index) != Some(&place(*digit)) {
            return false;
        }
    }
    numbers.len() == digits.len()
}
