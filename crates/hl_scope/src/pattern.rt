//! Patterns at their types.

ghost use Rattle.std.specs.Prelude.{◌≡◌, length, map};
ghost use Rattle.hl_rules.specs.Patterns.{items_walk, pattern_step, pattern_walk, patterns_walk};
ghost use Rattle.hl_syntax.specs.declared.tree.PatternForm.TheOpen.{PatternForm-F};
ghost use Rattle.hl_scope.specs.Checks.{ChecksAs};

use crate::names::is_variable_word;
use crate::refusal::{CheckRefusal, needs};
use crate::scope::has_name;
use crate::shapes::{array_parts, tuple_parts};
use hl_syntax::{HlType, Pattern, PatternForm, Rule, Span, TypedName, Wanted};
use hl_types::copy_type;
use lists::Text;
use std::alloc::Global;

/// Binds a name at a type, after what the pattern bound before.
fn bind_name(
    alloc: Global,
    name: &Text,
    span: Span,
    kind: &HlType,
    bound: &mut Wanted,
) -> Result<(), CheckRefusal>
    ensures { ChecksAs (λ _. bound.new) (pattern_step (PatternForm-F.Name name.now) span kind.now bound.old) result }
{
    needs(!is_variable_word(name.as_str()), Rule::K24, span)?;
    needs(!has_name(bound.as_slice(), name.as_str()), Rule::K5, span)?;
    let name = name.clone()?;
    let kind = copy_type(alloc, kind)?;
    bound.push(TypedName { name, kind })?;
    Ok(())
}

/// Binds the names of patterns at their types, one after the other.
#[cycle(patterns)]
#[tactic(auto, using(crate::proofs::Parts::pattern_next, crate::proofs::Parts::no_pattern))]
fn bind_parts(
    alloc: Global,
    parts: &[Pattern],
    kinds: &[HlType],
    bound: &mut Wanted,
) -> Result<(), CheckRefusal>
    requires { length parts.now ≡ length kinds.now }
    ensures { ChecksAs (λ _. bound.new) (patterns_walk (map pattern_walk parts.now) kinds.now bound.old) result }
{
    'parts: for (place, part) in parts.iter().enumerate() {
        bind_pattern(alloc, part, &kinds[place], bound)?;
    }
    Ok(())
}

/// Binds the names of patterns at one type, one after the other.
#[cycle(patterns)]
#[tactic(auto, using(crate::proofs::Parts::item_next, crate::proofs::Parts::no_item))]
fn bind_items(
    alloc: Global,
    parts: &[Pattern],
    item: &HlType,
    bound: &mut Wanted,
) -> Result<(), CheckRefusal>
    ensures { ChecksAs (λ _. bound.new) (items_walk (map pattern_walk parts.now) item.now bound.old) result }
{
    'items: for part in parts {
        bind_pattern(alloc, part, item, bound)?;
    }
    Ok(())
}

/// Binds the names of a pattern at a type, after what it bound before.
///
/// # Errors
///
/// K24 and K5 for a name, K6 and K8 for a tuple or an array that isn't of the type.
#[cycle(patterns)]
pub fn bind_pattern(
    alloc: Global,
    pattern: &Pattern,
    kind: &HlType,
    bound: &mut Wanted,
) -> Result<(), CheckRefusal>
    ensures { ChecksAs (λ _. bound.new) (pattern_walk pattern.now kind.now bound.old) result }
{
    let span = pattern.span;
    match &pattern.form {
        PatternForm::Name(name) => bind_name(alloc, name, span, kind, bound),
        PatternForm::Ignore => Ok(()),
        PatternForm::Tuple(parts) => {
            let kinds = tuple_parts(kind, Rule::K6, span)?;
            needs(parts.len() == kinds.len(), Rule::K8, span)?;
            bind_parts(alloc, parts.as_slice(), kinds.as_slice(), bound)
        }
        PatternForm::Array(parts) => {
            let (item, count) = array_parts(kind, Rule::K6, span)?;
            needs(parts.len() == count as usize, Rule::K8, span)?;
            bind_items(alloc, parts.as_slice(), item, bound)
        }
    }
}
