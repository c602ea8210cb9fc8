//! The nodes of a list.

use word_math::Word;

/// A node of a list, which names its children by their places.
///
/// A hidden node carries the 32 bytes of a root, a failure 64 bytes.
#[derive(Clone, Copy, Debug, PartialEq, Eq, Hash)]
pub enum ListNode {
    Iden,
    Unit,
    Injl(usize),
    Injr(usize),
    Take(usize),
    Drop(usize),
    Comp(usize, usize),
    Case(usize, usize),
    Pair(usize, usize),
    Hidden([u8; 32]),
    Fail([u8; 64]),
    Witness,
    Word(Word),
}
