//! Witnesses, what is taken back, and many binds. A path doesn't depend on types, so one stands for all.

use crate::paths::has_paths;
use crate::patterns::{Part, expect, is_written, patterns};
use hl_syntax::{HlType, Pattern, TypedName};
use lists::Text;
use scope_layout::{Layout, WitnessNames};
use std::alloc::{AllocError, Global};
use std::test::Fail;

/// Witnesses of these names.
fn witnesses(alloc: Global, names: &[&str]) -> Result<WitnessNames, AllocError> {
    let mut all = WitnessNames::new(alloc);
    for name in names {
        let name = Text::from_str(alloc, name)?;
        all.push(TypedName {
            name,
            kind: HlType::Bool,
        })?;
    }
    Ok(all)
}

/// Whether witnesses and variables have their paths, where `x` begins the scope, witnesses are bound and then `w`.
fn are_apart(
    alloc: Global,
    names: &[Pattern],
    bound: &WitnessNames,
    kind: &HlType,
) -> Result<bool, AllocError> {
    let [x, w] = names else {
        return Ok(false);
    };
    let mut layout = Layout::new(alloc, x, kind)?;
    layout.bind_witnesses(bound)?;
    layout.bind(w, kind)?;
    for (name, letters) in [("x", "IOOH"), ("w", "IOIOH"), ("v", "IOIIH"), ("y", "-")] {
        if !is_written(layout.witness_path(name)?, letters) {
            return Ok(false);
        }
    }
    has_paths(&layout, &[("x", "IIH"), ("w", "OH"), ("v", "-")])
}

/// Whether `x` and `y` have the paths as after they were bound, where `x` is bound again and taken back.
fn is_taken_back(alloc: Global, names: &[Pattern], kind: &HlType) -> Result<bool, AllocError> {
    let [x, y] = names else {
        return Ok(false);
    };
    let mut layout = Layout::new(alloc, x, kind)?;
    layout.bind(y, kind)?;
    layout.bind(x, kind)?;
    layout.unbind();
    has_paths(&layout, &[("x", "IH"), ("y", "OH")])
}

#[test]
fn keeps_apart(rt: HostRuntime) -> Result<(), Fail> {
    let kind = HlType::Bool;
    let names = patterns(rt.alloc(), &[Part::Name("x"), Part::Name("w")])?;
    let bound = witnesses(rt.alloc(), &["x", "w", "v"])?;
    let holds = are_apart(rt.alloc(), names.as_slice(), &bound, &kind)?;
    expect(holds, "witnesses")
}

#[test]
fn takes_back(rt: HostRuntime) -> Result<(), Fail> {
    let kind = HlType::Bool;
    let names = patterns(rt.alloc(), &[Part::Name("x"), Part::Name("y")])?;
    let holds = is_taken_back(rt.alloc(), names.as_slice(), &kind)?;
    expect(holds, "taken back")
}

/// How long the path of a name is after the first of two patterns begins the scope and the second is bound so many
/// times; nothing where there is none.
fn length_after(
    alloc: Global,
    patterns: &[Pattern],
    kind: &HlType,
    count: u32,
) -> Result<usize, AllocError> {
    let [first, second] = patterns else {
        return Ok(0);
    };
    let mut layout = Layout::new(alloc, first, kind)?;
    for _ in 0..count {
        layout.bind(second, kind)?;
    }
    Ok(layout.path("x")?.map_or(0, |path| path.len()))
}

/// A pattern without a name, and one with a name at the left of so many pairs in one another.
fn deep_parts(alloc: Global, count: u32) -> Result<Vec<Part>, AllocError> {
    let mut parts = Vec::new(alloc);
    parts.push(Part::Ignored)?;
    parts.push(Part::Name("x"))?;
    for _ in 0..count {
        parts.push(Part::Ignored)?;
        parts.push(Part::Tuple(2))?;
    }
    Ok(parts)
}

#[test]
fn binds_many(rt: HostRuntime) -> Result<(), Fail> {
    let kind = HlType::Bool;
    let flat = patterns(rt.alloc(), &[Part::Name("x"), Part::Ignored])?;
    let length = length_after(rt.alloc(), flat.as_slice(), &kind, 60_000)?;
    expect(length == 60_000, "60,000 binds")
}

#[test]
fn binds_deep(rt: HostRuntime) -> Result<(), Fail> {
    let kind = HlType::Bool;
    let parts = deep_parts(rt.alloc(), 300)?;
    let deep = patterns(rt.alloc(), parts.as_slice())?;
    let length = length_after(rt.alloc(), deep.as_slice(), &kind, 300)?;
    expect(length == 301, "300 deep, 300 times")
}
