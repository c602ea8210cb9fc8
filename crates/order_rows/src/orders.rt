//! Lists in their order, shared, and reordered. Their texts are those of `texts`.

ghost use Rattle.std.specs.Prelude.{◌<◌, length, IfOk};
ghost use Rattle.simplicity.specs.Nodes.{HasRoot};
ghost use Rattle.type_table.specs.Kinds.{IsGrown};

use crate::texts::{are_written, has_root, is_written, list, may_follow, place};
use infer_cells::{InferRefusal, infer};
use share_order::{CanonRefusal, OrderRefusal, Reordered, check_order, check_shared, reorder};
use std::alloc::{AllocError, Global};
use std::test::Fail;
use term_core::{ListNode, NodeList};
use type_table::{TypeId, TypeTable};

/// A list between two types, and what is to be answered of it.
///
/// The types are `1`, `b` of bytes and `2` of two bytes. `order` has the place of the first node that isn't in its
/// place, `shared` the places of two equal nodes, or nothing. `places` are the least old places of the nodes of the
/// list reordered.
struct Row {
    name: &'static str,
    ends: &'static str,
    nodes: &'static str,
    order: &'static str,
    shared: &'static str,
    reordered: &'static str,
    places: &'static str,
}

static ROWS: [Row; 21] = [
    Row {
        name: "an empty program",
        ends: "11",
        nodes: "u",
        order: "",
        shared: "",
        reordered: "u",
        places: "0",
    },
    Row {
        name: "the identity on bytes",
        ends: "bb",
        nodes: "i",
        order: "",
        shared: "",
        reordered: "i",
        places: "0",
    },
    Row {
        name: "the second of two bytes",
        ends: "2b",
        nodes: "i d0",
        order: "",
        shared: "",
        reordered: "i d0",
        places: "01",
    },
    Row {
        name: "two bytes exchanged",
        ends: "22",
        nodes: "i d0 t0 p12",
        order: "",
        shared: "",
        reordered: "i d0 t0 p12",
        places: "0123",
    },
    Row {
        name: "a byte",
        ends: "1b",
        nodes: "u b ;01",
        order: "",
        shared: "",
        reordered: "u b ;01",
        places: "012",
    },
    Row {
        name: "a byte bound over another",
        ends: "bb",
        nodes: "u b ;01 i p23 t3 ;45",
        order: "",
        shared: "",
        reordered: "u b ;01 i p23 t3 ;45",
        places: "0123456",
    },
    Row {
        name: "an assertion of true",
        ends: "11",
        nodes: "u r0 p10 h u c34 ;25 p60 i d8 ;79",
        order: "",
        shared: "",
        reordered: "u r0 p10 h u c34 ;25 p60 i d8 ;79",
        places: "0123456789a",
    },
    Row {
        name: "its units first",
        ends: "11",
        nodes: "u u r0 p20 h c41 ;35 p60 i d8 ;79",
        order: "1",
        shared: "",
        reordered: "u r0 p10 h u c34 ;25 p60 i d8 ;79",
        places: "0234156789a",
    },
    Row {
        name: "an assertion of false",
        ends: "11",
        nodes: "u l0 p10 h u c34 ;25 p60 i d8 ;79",
        order: "",
        shared: "",
        reordered: "u l0 p10 h u c34 ;25 p60 i d8 ;79",
        places: "0123456789a",
    },
    Row {
        name: "a function called twice",
        ends: "11",
        nodes: "u r0 i p22 u c44 ;35 ;16 w ;86 p90 i db ;ac p7d ;ec",
        order: "",
        shared: "",
        reordered: "u r0 i p22 u c44 ;35 ;16 w ;86 p90 i db ;ac p7d ;ec",
        places: "0123456789abcdef",
    },
    Row {
        name: "a pair whose parts aren't used",
        ends: "11",
        nodes: "w i p01 i t3 i p45 u ;67 ;28",
        order: "",
        shared: "13",
        reordered: "w i p01 t1 i p34 u ;56 ;27",
        places: "012456789",
    },
    Row {
        name: "a match with its right side cut off",
        ends: "11",
        nodes: "w i p01 u w u p45 u ;67 h c39 ;2a",
        order: "4",
        shared: "37",
        reordered: "w i p01 u h c34 ;25",
        places: "01239ab",
    },
    Row {
        name: "an unreached node first",
        ends: "11",
        nodes: "i u",
        order: "0",
        shared: "",
        reordered: "u",
        places: "1",
    },
    Row {
        name: "an unreached node between",
        ends: "11",
        nodes: "u l0 ;00",
        order: "1",
        shared: "",
        reordered: "u ;00",
        places: "02",
    },
    Row {
        name: "equal leaves",
        ends: "11",
        nodes: "i i p01 u ;23",
        order: "",
        shared: "01",
        reordered: "i p00 u ;12",
        places: "0234",
    },
    Row {
        name: "the first of equal leaves reached last",
        ends: "11",
        nodes: "i i p10 u ;23",
        order: "0",
        shared: "01",
        reordered: "i p00 u ;12",
        places: "0234",
    },
    Row {
        name: "two pairs of equal leaves",
        ends: "11",
        nodes: "u i i u p01 p23 p45 u ;67",
        order: "2",
        shared: "12",
        reordered: "u i p01 p10 p23 u ;45",
        places: "0145678",
    },
    Row {
        name: "three equal leaves",
        ends: "11",
        nodes: "i i i p01 p23 u ;45",
        order: "0",
        shared: "01",
        reordered: "i p00 p01 u ;23",
        places: "03456",
    },
    Row {
        name: "witnesses",
        ends: "11",
        nodes: "w w p01 u ;23",
        order: "",
        shared: "",
        reordered: "w w p01 u ;23",
        places: "01234",
    },
    Row {
        name: "a hidden side twice",
        ends: "11",
        nodes: "h u c01 h c13 p24 w ;65 u ;78",
        order: "0",
        shared: "03",
        reordered: "w h u c12 c21 p34 ;05 ;62",
        places: "60124579",
    },
    Row {
        name: "a right child first",
        ends: "11",
        nodes: "u i ;10",
        order: "0",
        shared: "",
        reordered: "i u ;01",
        places: "102",
    },
];

/// The answer that a text of places stands for.
fn answer(places: &str) -> Result<(), OrderRefusal> {
    match places.as_bytes() {
        [] => Ok(()),
        [node] => Err(OrderRefusal::NotCanonical { node: place(*node) }),
        [first, second] => Err(OrderRefusal::NotShared {
            first: place(*first),
            second: place(*second),
        }),
        _ => Err(OrderRefusal::OutOfMemory),
    }
}

/// The types that two letters stand for.
fn ends(letters: &str, types: &mut TypeTable) -> Result<(TypeId, TypeId), AllocError>
    ensures { IfOk result (λ ends. (ends.0 < length types.new) × (ends.1 < length types.new)) }
{
    let unit = types.unit()?;
    let byte = types.word(8)?;
    let both = types.product(byte, byte)?;
    match letters.as_bytes() {
        [b'b', b'b'] => Ok((byte, byte)),
        [b'1', b'b'] => Ok((unit, byte)),
        [b'2', b'b'] => Ok((both, byte)),
        [b'2', b'2'] => Ok((both, both)),
        _ => Ok((unit, unit)),
    }
}

/// What is answered of a list's sharing under its least typing.
fn sharing(
    alloc: Global,
    list: &NodeList,
    ends: (TypeId, TypeId),
    types: &mut TypeTable,
) -> Result<(), OrderRefusal>
    requires rooted { HasRoot list.now }
    requires ends { (ends.0 < length types.old) × (ends.1 < length types.old) }
    ensures grown { IsGrown types.old types.new }
{
    let (source, target) = ends;
    match infer(alloc, list, source, target, types) {
        Ok(typing) => check_shared(alloc, list, &typing, types),
        Err(_) => Err(OrderRefusal::OutOfMemory),
    }
}

/// A list reordered, or why it isn't; want of memory where it has no typing.
fn reordered(
    alloc: Global,
    list: &NodeList,
    ends: (TypeId, TypeId),
    types: &mut TypeTable,
) -> Result<Reordered, CanonRefusal>
    requires rooted { HasRoot list.now }
    requires ends { (ends.0 < length types.old) × (ends.1 < length types.old) }
{
    let (source, target) = ends;
    match infer(alloc, list, source, target, types) {
        Ok(_) | Err(InferRefusal::TypeTooLarge) => reorder(alloc, list, source, target, types),
        Err(_) => Err(CanonRefusal::OutOfMemory),
    }
}

/// Whether a row's list is shared under its least typing as the row has it.
fn is_shared_so(alloc: Global, list: &NodeList, row: &Row) -> Result<bool, AllocError>
    requires { HasRoot list.now }
{
    let mut types = TypeTable::new(alloc);
    let ends = ends(row.ends, &mut types)?;
    Ok(sharing(alloc, list, ends, &mut types) == answer(row.shared))
}

/// Whether a row's list is reordered as the row has it.
fn is_reordered_so(alloc: Global, list: &NodeList, row: &Row) -> Result<bool, AllocError>
    requires { HasRoot list.now }
{
    let mut types = TypeTable::new(alloc);
    let ends = ends(row.ends, &mut types)?;
    let Ok(reordered) = reordered(alloc, list, ends, &mut types) else {
        return Ok(false);
    };
    Ok(
        is_written(&reordered.nodes, row.reordered)
            && are_written(reordered.places.as_slice(), row.places)
            && reordered.typing.len() == reordered.nodes.len(),
    )
}

/// Whether a row's list is answered as the row has it.
fn is_answered(alloc: Global, row: &Row) -> Result<bool, AllocError> {
    let list = list(alloc, row.nodes)?;
    Ok(
        has_root(&list)
            && check_order(alloc, &list) == answer(row.order)
            && is_shared_so(alloc, &list, row)?
            && is_reordered_so(alloc, &list, row)?,
    )
}

#[test]
fn answers_as_the_rows(rt: HostRuntime) -> Result<(), Fail> {
    for row in ROWS.iter() {
        assert!(rt; is_answered(rt.alloc(), row)?, "{}", row.name);
    }
    Ok(())
}

/// A unit and its compositions with what stands before each, so many nodes.
fn compositions(alloc: Global, count: usize) -> Result<NodeList, AllocError> {
    let mut list = NodeList::new(alloc);
    list.push(ListNode::Unit)?;
    for place in 0..count.saturating_sub(1) {
        let node = ListNode::Comp(place, 0);
        if may_follow(&list, &node) {
            list.push(node)?;
        }
    }
    Ok(list)
}

/// Why a list at the arrow of programs isn't reordered.
fn refusal(alloc: Global, list: &NodeList) -> Result<Option<CanonRefusal>, AllocError> {
    let mut types = TypeTable::new(alloc);
    let unit = types.unit()?;
    if !has_root(list) {
        return Ok(None);
    }
    Ok(reordered(alloc, list, (unit, unit), &mut types).err())
}

/// Pairs of what stands before with itself: the type of the last has 4,194,303 nodes.
const LIGHT: &str =
    "i p00 p11 p22 p33 p44 p55 p66 p77 p88 p99 paa pbb pcc pdd pee pff pgg phh pii pjj pkk u ;lm";

/// The same with one pair more, whose type has 8,388,607 nodes.
const HEAVY: &str =
    "i p00 p11 p22 p33 p44 p55 p66 p77 p88 p99 paa pbb pcc pdd pee pff pgg phh pii pjj pkk pll u ;mn";

fn refusal_of_text(alloc: Global, text: &str) -> Result<Option<CanonRefusal>, AllocError> {
    let list = list(alloc, text)?;
    refusal(alloc, &list)
}

fn refusal_of_count(alloc: Global, nodes: usize) -> Result<Option<CanonRefusal>, AllocError> {
    let list = compositions(alloc, nodes)?;
    refusal(alloc, &list)
}

#[test]
fn refuses_above_the_limits(rt: HostRuntime) -> Result<(), Fail> {
    let light = refusal_of_text(rt.alloc(), LIGHT)?;
    let heavy = refusal_of_text(rt.alloc(), HEAVY)?;
    assert_eq!(rt; [light, heavy], [None, Some(CanonRefusal::TypeTooLarge)]);
    let few = refusal_of_count(rt.alloc(), 1_048_576)?;
    let many = refusal_of_count(rt.alloc(), 1_048_577)?;
    assert_eq!(rt; [few, many], [None, Some(CanonRefusal::TooManyNodes)]);
    Ok(())
}
