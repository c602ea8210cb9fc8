//! Words that come back from their values.

use core_data::CoreValue;
use std::test::Fail;
use word_math::Word;

#[test]
fn words_come_back_from_their_values(rt: HostRuntime) -> Result<(), Fail> {
    let byte = Word::new(8, 0, 200);
    let wide = Word::new(256, 1, 7);
    for word in [byte, wide] {
        if let Some(word) = word {
            let value = word.to_value(rt.alloc())?;
            assert!(rt; Word::from_value(&value) == Some(word));
            assert!(rt; word.bit(0) == (word.width() == 8));
        }
    }
    assert!(rt; Word::from_value(&CoreValue::Unit).is_none());
    Ok(())
}
