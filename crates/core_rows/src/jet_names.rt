//! The table of jets.

use jet_table::profile;
use std::test::Fail;
use word_math::Op;

#[test]
fn finds_whole_names(rt: HostRuntime) -> Result<(), Fail> {
    let table = profile();
    let place = table.find("add_8").unwrap_or(0);
    assert_eq!(rt; place, 3);
    assert_eq!(rt; table.row(3).op, Op::Add);
    assert_eq!(rt; table.row(3).narrow, 8);
    assert!(rt; table.find("add_7").is_none());
    assert!(rt; table.find("").is_none());
    Ok(())
}
