//! The list of nodes of a small source.

ghost use Rattle.std.specs.Prelude.{◌≡◌, ℕ, ◌<◌, ◌^◌, List, length, Some, None, IfOk, IfErr, IfSome, IfNone, slice_get};
ghost use Rattle.small_source.specs.View.{body_of, small_of};
ghost use Rattle.small_terms.specs.Compiled.{IsCompiled, IsModest};
ghost use Rattle.small_terms.specs.Emitting.{Emits};
ghost use Rattle.small_terms.specs.Entries.{AreBelow, entry_nodes};
ghost use Rattle.small_terms.specs.Plan.{Plan, Picks, Makes};
ghost use Rattle.small_terms.specs.Refusals.{IsUnknown};
ghost use Rattle.small_terms.specs.Result.{first_unknown};
ghost use Rattle.small_terms.specs.declared.build.BuildRefusal.TheVariants.{OutOfMemory};

use crate::entries::{Entry, SmallNode, add};
use small_source::{Body, Name, SmallFunction};
use std::alloc::{AllocError, Global};
use term_core::NodeList;

/// Why no list is made.
#[derive(Clone, Copy, Debug, PartialEq, Eq)]
pub enum BuildRefusal {
    /// A name of the body is no parameter: the place of its first byte in the text, and how many bytes it has.
    UnknownName { start: usize, length: usize },
    OutOfMemory,
}

impl From<AllocError> for BuildRefusal {
    ghost from_gives = { λ _ e. e ≡ OutOfMemory };

    fn from(_error: AllocError) -> BuildRefusal {
        BuildRefusal::OutOfMemory
    }
}

/// The nodes of a function, none of them twice, in the order in which a walk from the root ends them.
///
/// Each parameter is reached by halves of the tuple of all. `UnknownName` comes at the first name, from the left,
/// that is no parameter.
pub fn build_small(alloc: Global, function: &SmallFunction) -> Result<NodeList, BuildRefusal>
    requires { IsModest (small_of function.now) }
    ensures compiled { IfOk result (λ nodes. IsCompiled nodes (small_of function.now)) }
    ensures few { IfOk result (λ nodes. length nodes < 2 ^ 32) }
    ensures known { IfOk result (λ _.
        first_unknown (small_of function.now).parameters (small_of function.now).body ≡ None) }
    ensures unknown { IfErr result
        (IsUnknown (small_of function.now).parameters (small_of function.now).body) }
{
    let mut entries = Vec::new(alloc);
    emit_body(&mut entries, function.parameters.as_slice(), &function.body)?;
    Ok(listed(alloc, entries.as_slice())?)
}

/// Adds the nodes of a body.
fn emit_body(
    entries: &mut Vec<Entry>,
    parameters: &[Name],
    body: &Body,
) -> Result<usize, BuildRefusal>
    ensures emitted { IfOk result (λ at. (plan : Plan) →
        Makes parameters.now (body_of body.now) plan →
        Emits entries.old.items plan entries.new.items at) }
    ensures known { IfOk result (λ _. first_unknown parameters.now (body_of body.now) ≡ None) }
    ensures unknown { IfErr result (IsUnknown parameters.now (body_of body.now)) }
{
    match body {
        Body::Named(name, start) => {
            let Some(place) = place_of(parameters, name.as_bytes()) else {
                let length = name.as_bytes().len();
                return Err(BuildRefusal::UnknownName {
                    start: *start,
                    length,
                });
            };
            Ok(emit_path(entries, parameters.len(), place)?)
        }
        Body::Paired(left, right) => {
            let left = emit_body(entries, parameters, left)?;
            let right = emit_body(entries, parameters, right)?;
            let node = SmallNode::Pair(left, right);
            let count = parameters.len();
            Ok(add(entries, Entry { node, count })?)
        }
    }
}

/// Adds the nodes that lead to the byte at a place among so many.
fn emit_path(entries: &mut Vec<Entry>, count: usize, place: usize) -> Result<usize, AllocError>
    requires { place < count }
    ensures { IfOk result (λ at. (plan : Plan) →
        Picks count place plan → Emits entries.old.items plan entries.new.items at) }
{
    if count == 1 {
        let node = SmallNode::Iden;
        return Ok(add(entries, Entry { node, count })?);
    }
    let half = count / 2;
    if place < half {
        let child = emit_path(entries, half, place)?;
        let node = SmallNode::Take(child);
        return Ok(add(entries, Entry { node, count })?);
    }
    let child = emit_path(entries, count - half, place - half)?;
    let node = SmallNode::Drop(child);
    Ok(add(entries, Entry { node, count })?)
}

/// The place of the first parameter of a name.
fn place_of(parameters: &[Name], name: &[u8]) -> Option<usize>
    ensures found { IfSome result (λ at. slice_get parameters.now at ≡ Some name.now) }
    ensures before { IfSome result (λ at.
        (i : ℕ) → i < at → ¬ (slice_get parameters.now i ≡ Some name.now)) }
    ensures none { IfNone result ((i : ℕ) → ¬ (slice_get parameters.now i ≡ Some name.now)) }
{
    for (place, parameter) in parameters.iter().enumerate() {
        if parameter.as_bytes() == name {
            return Some(place);
        }
    }
    None
}

/// The list of the nodes of entries.
fn listed(alloc: Global, entries: &[Entry]) -> Result<NodeList, AllocError>
    requires { AreBelow entries.now }
    ensures { IfOk result (λ nodes. nodes ≡ entry_nodes entries.now) }
{
    let mut nodes = NodeList::new(alloc);
    for entry in entries {
        nodes.push(entry.node.list_node())?;
    }
    Ok(nodes)
}
