//! Canonical lists of terms of tables. Their texts are those of `texts`.

use crate::texts::{are_written, is_written};
use canon_list::canonical;
use std::alloc::{AllocError, Global};
use std::test::Fail;
use term_core::{Node, TermTable};
use type_table::TypeTable;

/// Whether two witnesses of one arrow, of which the term takes that of the later row first, are named so.
fn names_the_later_first(alloc: Global) -> Result<bool, AllocError> {
    let mut types = TypeTable::new(alloc);
    let unit = types.unit()?;
    let mut table = TermTable::new(alloc);
    let first = table.add(Node::Witness(5), unit, unit, &types)?;
    let second = table.add(Node::Witness(3), unit, unit, &types)?;
    let root = table.add(Node::Comp(second, first), unit, unit, &types)?;
    let Ok(canon) = canonical(alloc, &table, root, &mut types) else {
        return Ok(false);
    };
    Ok(
        is_written(&canon.nodes, "w w ;01")
            && are_written(canon.names.as_slice(), "35")
            && canon.typing.len() == 3,
    )
}

#[test]
fn names_witnesses(rt: HostRuntime) -> Result<(), Fail> {
    assert!(rt; names_the_later_first(rt.alloc())?);
    Ok(())
}
