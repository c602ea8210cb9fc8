//! The `let`s of a block, and the paths of names after them.

use crate::patterns::{Part, expect, is_written, patterns};
use Part::{Array, Ignored, Name, Tuple};
use hl_syntax::{HlType, Pattern};
use scope_layout::Layout;
use std::alloc::{AllocError, Global};
use std::test::Fail;

/// The patterns that are bound one after the other, and names with their paths after these.
type Row = (
    &'static str,
    &'static [Part],
    &'static [(&'static str, &'static str)],
);

/// Tuples of one part to nine, other forms, and names that are bound again.
static ROWS: [Row; 22] = [
    ("(a,)", &[Name("a"), Tuple(1)], &[("a", "H")]),
    (
        "(a, b)",
        &[Name("a"), Name("b"), Tuple(2)],
        &[("a", "OH"), ("b", "IH")],
    ),
    (
        "(a, b, c)",
        &[Name("a"), Name("b"), Name("c"), Tuple(3)],
        &[("a", "OH"), ("b", "IOH"), ("c", "IIH")],
    ),
    (
        "(a, b, c, d)",
        &[Name("a"), Name("b"), Name("c"), Name("d"), Tuple(4)],
        &[("a", "OOH"), ("b", "OIH"), ("c", "IOH"), ("d", "IIH")],
    ),
    (
        "(a, b, c, d, e)",
        &[
            Name("a"),
            Name("b"),
            Name("c"),
            Name("d"),
            Name("e"),
            Tuple(5),
        ],
        &[
            ("a", "OOH"),
            ("b", "OIH"),
            ("c", "IOH"),
            ("d", "IIOH"),
            ("e", "IIIH"),
        ],
    ),
    (
        "(a, b, c, d, e, f)",
        &[
            Name("a"),
            Name("b"),
            Name("c"),
            Name("d"),
            Name("e"),
            Name("f"),
            Tuple(6),
        ],
        &[
            ("a", "OOH"),
            ("b", "OIOH"),
            ("c", "OIIH"),
            ("d", "IOH"),
            ("e", "IIOH"),
            ("f", "IIIH"),
        ],
    ),
    (
        "(a, b, c, d, e, f, g)",
        &[
            Name("a"),
            Name("b"),
            Name("c"),
            Name("d"),
            Name("e"),
            Name("f"),
            Name("g"),
            Tuple(7),
        ],
        &[
            ("a", "OOH"),
            ("b", "OIOH"),
            ("c", "OIIH"),
            ("d", "IOOH"),
            ("e", "IOIH"),
            ("f", "IIOH"),
            ("g", "IIIH"),
        ],
    ),
    (
        "(a, b, c, d, e, f, g, h)",
        &[
            Name("a"),
            Name("b"),
            Name("c"),
            Name("d"),
            Name("e"),
            Name("f"),
            Name("g"),
            Name("h"),
            Tuple(8),
        ],
        &[
            ("a", "OOOH"),
            ("b", "OOIH"),
            ("c", "OIOH"),
            ("d", "OIIH"),
            ("e", "IOOH"),
            ("f", "IOIH"),
            ("g", "IIOH"),
            ("h", "IIIH"),
        ],
    ),
    (
        "(a, b, c, d, e, f, g, h, i)",
        &[
            Name("a"),
            Name("b"),
            Name("c"),
            Name("d"),
            Name("e"),
            Name("f"),
            Name("g"),
            Name("h"),
            Name("i"),
            Tuple(9),
        ],
        &[
            ("a", "OOOH"),
            ("b", "OOIH"),
            ("c", "OIOH"),
            ("d", "OIIH"),
            ("e", "IOOH"),
            ("f", "IOIH"),
            ("g", "IIOH"),
            ("h", "IIIOH"),
            ("i", "IIIIH"),
        ],
    ),
    (
        "(x, y), then _",
        &[Name("x"), Name("y"), Tuple(2), Ignored],
        &[("y", "IIH"), ("x", "IOH"), ("z", "-")],
    ),
    ("()", &[Tuple(0)], &[("x", "-")]),
    ("x", &[Name("x")], &[("x", "H"), ("y", "-")]),
    ("_", &[Ignored], &[("_", "-")]),
    ("((x,),)", &[Name("x"), Tuple(1), Tuple(1)], &[("x", "H")]),
    (
        "[a, b, c]",
        &[Name("a"), Name("b"), Name("c"), Array(3)],
        &[("a", "OH"), ("b", "IOH"), ("c", "IIH")],
    ),
    (
        "[(a, b), (_, c)]",
        &[
            Name("a"),
            Name("b"),
            Tuple(2),
            Ignored,
            Name("c"),
            Tuple(2),
            Array(2),
        ],
        &[("a", "OOH"), ("b", "OIH"), ("c", "IIH")],
    ),
    (
        "(a, (b, [c, d, e], _), f)",
        &[
            Name("a"),
            Name("b"),
            Name("c"),
            Name("d"),
            Name("e"),
            Array(3),
            Ignored,
            Tuple(3),
            Name("f"),
            Tuple(3),
        ],
        &[
            ("a", "OH"),
            ("b", "IOOH"),
            ("c", "IOIOOH"),
            ("d", "IOIOIOH"),
            ("e", "IOIOIIH"),
            ("f", "IIH"),
        ],
    ),
    (
        "(x, y, x)",
        &[Name("x"), Name("y"), Name("x"), Tuple(3)],
        &[("x", "OH"), ("y", "IOH")],
    ),
    (
        "((x, y), (y, x))",
        &[
            Name("x"),
            Name("y"),
            Tuple(2),
            Name("y"),
            Name("x"),
            Tuple(2),
            Tuple(2),
        ],
        &[("x", "OOH"), ("y", "OIH")],
    ),
    ("x, then x", &[Name("x"), Name("x")], &[("x", "OH")]),
    (
        "(x, y), then (z, x), then (y, _)",
        &[
            Name("x"),
            Name("y"),
            Tuple(2),
            Name("z"),
            Name("x"),
            Tuple(2),
            Name("y"),
            Ignored,
            Tuple(2),
        ],
        &[("x", "IOIH"), ("y", "OOH"), ("z", "IOOH"), ("w", "-")],
    ),
    (
        "a, then b, then c, then d",
        &[Name("a"), Name("b"), Name("c"), Name("d")],
        &[("a", "IIIH"), ("b", "IIOH"), ("c", "IOH"), ("d", "OH")],
    ),
];

/// The layout after these patterns, of which the first begins the scope. A path doesn't depend on types, so one stands
/// for all.
fn layout_of<'a>(
    alloc: Global,
    patterns: &'a [Pattern],
    kind: &'a HlType,
) -> Result<Option<Layout<'a>>, AllocError> {
    let Some((first, others)) = patterns.split_first() else {
        return Ok(None);
    };
    let mut layout = Layout::new(alloc, first, kind)?;
    for pattern in others {
        layout.bind(pattern, kind)?;
    }
    Ok(Some(layout))
}

/// Whether names have these paths.
pub(crate) fn has_paths(
    layout: &Layout,
    paths: &[(&'static str, &'static str)],
) -> Result<bool, AllocError> {
    for (name, letters) in paths {
        if !is_written(layout.path(name)?, letters) {
            return Ok(false);
        }
    }
    Ok(true)
}

/// Whether the names of a row have their paths after its patterns.
fn is_right(alloc: Global, row: &Row) -> Result<bool, AllocError> {
    let kind = HlType::Bool;
    let patterns = patterns(alloc, row.1)?;
    match layout_of(alloc, patterns.as_slice(), &kind)? {
        Some(layout) => has_paths(&layout, row.2),
        None => Ok(false),
    }
}

#[test]
fn names_have_paths(rt: HostRuntime) -> Result<(), Fail> {
    for row in ROWS.iter() {
        expect(is_right(rt.alloc(), row)?, row.0)?;
    }
    Ok(())
}
