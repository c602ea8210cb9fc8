//! Lists, boxes and texts of trees.

use lists::{Boxed, Sequence, Text};
use std::test::Fail;

#[test]
fn lists_boxes_and_texts(rt: HostRuntime) -> Result<(), Fail> {
    let mut words = Sequence::new(rt.alloc());
    assert!(rt; words.is_empty());
    words.push(Text::from_str(rt.alloc(), "list")?)?;
    words.push(Text::from_bytes(rt.alloc(), b"\xe2\x82\xac")?)?;
    assert_eq!(rt; words.len(), 2);
    let copy = words.get(1).clone()?;
    assert_eq!(rt; copy.as_str(), "\u{20ac}");

    let boxed = Boxed::new(rt.alloc(), Sequence::from_vec(words.into_vec()))?;
    assert_eq!(rt; boxed.get().get(0).as_str(), "list");
    let words = boxed.into_inner();
    assert_eq!(rt; words.as_slice().len(), 2);
    Ok(())
}
