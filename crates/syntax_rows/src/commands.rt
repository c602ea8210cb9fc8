//! Words of a command.

use command_words::{Asked, Edition, read_words};
use std::alloc::{AllocError, Global};
use std::test::Fail;

fn strings(alloc: Global, words: &[&str]) -> Result<Vec<String>, AllocError> {
    let mut strings = Vec::new(alloc);
    for word in words {
        strings.push(String::from_str(alloc, word)?)?;
    }
    Ok(strings)
}

#[test]
fn keys_come_in_any_order(rt: HostRuntime) -> Result<(), Fail> {
    let words = strings(
        rt.alloc(),
        &["eval", "a=b", "input=x=1", "edition=2", "wit=w", "fn=f"],
    )?;
    let Asked::Eval(asked) = read_words(words.as_slice()) else {
        return Err(Fail::new("the words are not taken"));
    };
    assert_eq!(rt; asked.file, "a=b");
    assert_eq!(rt; asked.function, "f");
    assert_eq!(rt; asked.witness, Some("w"));
    assert_eq!(rt; asked.input, Some("x=1"));
    assert!(rt; asked.args.is_none());
    assert_eq!(rt; asked.edition, Edition::Second);
    assert_eq!(rt; asked.edition.number(), 2);
    Ok(())
}

#[test]
fn the_edition_is_the_first_where_none_is_named(rt: HostRuntime) -> Result<(), Fail> {
    for last in ["fn=f", "edition=1"] {
        let words = strings(rt.alloc(), &["eval", "a.hl", last])?;
        let Asked::Eval(asked) = read_words(words.as_slice()) else {
            return Err(Fail::new("the words are not taken"));
        };
        assert_eq!(rt; asked.edition.number(), 1, "at {last}");
    }
    Ok(())
}
