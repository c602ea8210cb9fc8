//! Lists of small sources.

use small_source::read_small;
use small_terms::{BuildRefusal, build_small};
use std::test::Fail;
use term_core::ListNode;

const THREE: &[u8] = b"fn f(x: u8, y: u8, z: u8) -> (u8, (u8, u8)) { (x, (y, z)) }";

#[test]
fn names_three_parameters(rt: HostRuntime) -> Result<(), Fail> {
    let function = read_small(rt.alloc(), THREE, b"f")?;
    let nodes = build_small(rt.alloc(), &function)?;
    let want = [
        ListNode::Iden,
        ListNode::Take(0),
        ListNode::Take(0),
        ListNode::Drop(2),
        ListNode::Drop(0),
        ListNode::Drop(4),
        ListNode::Pair(3, 5),
        ListNode::Pair(1, 6),
    ];
    assert_eq!(rt; nodes.as_slice(), want.as_slice());
    Ok(())
}

#[test]
fn refuses_the_first_unknown_name(rt: HostRuntime) -> Result<(), Fail> {
    let text = b"fn f(x: u8) -> (u8, (u8, u8)) { (x, (one, two)) }";
    let function = read_small(rt.alloc(), text, b"f")?;
    let answer = build_small(rt.alloc(), &function).map(|nodes| nodes.len());
    let want = BuildRefusal::UnknownName {
        start: 37,
        length: 3,
    };
    assert_eq!(rt; answer, Err(want));
    Ok(())
}
