//! Roots against those that Python's hashlib gives, in hexadecimal digits.

ghost use Rattle.std.specs.Prelude.{[], ◌∷◌};
ghost use Rattle.simplicity.specs.Nodes as core;
ghost use Rattle.simplicity.specs.Nodes.{CanFollow};
ghost use Rattle.term_core.specs.Nodes.{node_of};

use hex::FromHex;
use root_hash::{fail_root, roots};
use std::alloc::{AllocError, Global};
use std::test::Fail;
use term_core::{ListNode, NodeList};
use word_math::Word;

/// Whether a root is the one with these digits.
fn is_spelled(root: &[u8; 32], digits: &str) -> bool {
    match <[u8; 32] as FromHex>::from_hex(digits) {
        Ok(spelled) => *root == spelled,
        Err(_) => false,
    }
}

/// Whether a node that may follow a unit has the root with these digits.
fn has_root(alloc: Global, node: ListNode, digits: &str) -> Result<bool, AllocError>
    requires { CanFollow (core.UnitNode ∷ []) (node_of node) }
{
    let mut nodes = NodeList::new(alloc);
    nodes.push(ListNode::Unit)?;
    nodes.push(node)?;
    let roots = roots(alloc, &nodes)?;
    match roots.as_slice().last() {
        Some(root) => Ok(is_spelled(root, digits)),
        None => Ok(false),
    }
}

/// The digits of the root of every failure.
const FAILURE: &str = "2f7168ad92d26e7a0c1fb5b1c6f80651c9095489eba8b0c1c78290048db4e09f";

#[test]
fn roots_of_leaves(rt: HostRuntime) -> Result<(), Fail> {
    assert!(rt;
        has_root(
            rt.alloc(),
            ListNode::Iden,
            "6f6b82c37d2f63841d0c481fbcb30ddc09a41260c49e82932d0ab9ef14d54cd9"
        )?
    );
    assert!(rt;
        has_root(
            rt.alloc(),
            ListNode::Witness,
            "e9cec8fd4fa1b5a58e1cc7fa015c2aa541ea1cd23b2cf7ecff211672d18a10a7"
        )?
    );
    assert!(rt; has_root(rt.alloc(), ListNode::Fail([0; 64]), FAILURE)?);
    assert!(rt; is_spelled(&fail_root(), FAILURE));
    Ok(())
}

#[test]
fn roots_over_one_child(rt: HostRuntime) -> Result<(), Fail> {
    assert!(rt;
        has_root(
            rt.alloc(),
            ListNode::Injl(0),
            "3c3f7c02adbba9e4120cbecc9d7b5275ca1aa655499b5251e2c67c9844de18e2"
        )?
    );
    assert!(rt;
        has_root(
            rt.alloc(),
            ListNode::Injr(0),
            "67f6144ca8a4d0357edb36c814e1863ba36b4d8cdd42d98708eaba99637d391e"
        )?
    );
    assert!(rt;
        has_root(
            rt.alloc(),
            ListNode::Take(0),
            "39751cfcbff5179ace1a01e0f5ffe0438dcb0cfadf464a14384af2183584ade5"
        )?
    );
    assert!(rt;
        has_root(
            rt.alloc(),
            ListNode::Drop(0),
            "4c445e212f9fd17df3a0e9ffe6ceaf81464c0b42280242914df7be42cab280af"
        )?
    );
    Ok(())
}

#[test]
fn roots_over_two_children(rt: HostRuntime) -> Result<(), Fail> {
    assert!(rt;
        has_root(
            rt.alloc(),
            ListNode::Comp(0, 0),
            "f4457266e39a519f17f67356a4173756e381c3321952652b85912ab2dfcdcc06"
        )?
    );
    assert!(rt;
        has_root(
            rt.alloc(),
            ListNode::Pair(0, 0),
            "40e057ebb7fedc05207b1ecc0531917bed02601339b277be59c2c956d45df68d"
        )?
    );
    Ok(())
}

/// Words by width and the two halves of their number, and the digits of their roots.
static WORDS: [(u16, u128, u128, &str); 3] = [
    (
        1,
        0,
        1,
        "67f6144ca8a4d0357edb36c814e1863ba36b4d8cdd42d98708eaba99637d391e",
    ),
    (
        8,
        0,
        5,
        "0189070b3cbdb9ba780d3c75c0f7cf95f515b41a18b57f42121183f90afa3d79",
    ),
    (
        256,
        1,
        7,
        "038488c67389013ad3343ee5b5fb90a600eb6cc428aeca643fce4623f1c13501",
    ),
];

#[test]
fn roots_of_words(rt: HostRuntime) -> Result<(), Fail> {
    for (width, high, low, digits) in WORDS.iter() {
        let word = Word::new(*width, *high, *low).ok_or("no word")?;
        assert!(rt; has_root(rt.alloc(), ListNode::Word(word), digits)?);
    }
    Ok(())
}

/// The bytes of a hidden side.
const HIDDEN: [u8; 32] = [
    0, 1, 2, 3, 4, 5, 6, 7, 8, 9, 10, 11, 12, 13, 14, 15, 16, 17, 18, 19, 20, 21, 22, 23, 24, 25,
    26, 27, 28, 29, 30, 31,
];

/// The digits of the roots of a unit, a hidden side, and the cases with that on either side of the unit.
static ASSERTIONS: [&str; 4] = [
    "0d29c1f8a5d3dee3b3f41b9b6543fba789db9f163e0b37ba12b5c4f13e51d268",
    "000102030405060708090a0b0c0d0e0f101112131415161718191a1b1c1d1e1f",
    "058701197dd2676eb01665f9ffc4c53a288411e23eae43db08bbfb4e45a11312",
    "616f0df5e06460278df82f9d6d5703b610d697e36dc26e96394a6b0c797d648f",
];

#[test]
fn roots_of_assertions(rt: HostRuntime) -> Result<(), Fail> {
    let mut nodes = NodeList::new(rt.alloc());
    nodes.push(ListNode::Unit)?;
    nodes.push(ListNode::Hidden(HIDDEN))?;
    nodes.push(ListNode::Case(1, 0))?;
    nodes.push(ListNode::Case(0, 1))?;
    let roots = roots(rt.alloc(), &nodes)?;
    assert_eq!(rt; roots.as_slice().len(), 4);
    for (root, digits) in roots.as_slice().iter().zip(ASSERTIONS.iter()) {
        assert!(rt; is_spelled(root, digits));
    }
    Ok(())
}
