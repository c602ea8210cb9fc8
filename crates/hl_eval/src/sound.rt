//! Whether a type has the widths, counts and bounds that types have.

ghost use Rattle.std.specs.Prelude.{◌≡◌, map};
ghost use Rattle.std.specs.List.{list_all};
ghost use Rattle.simplicityhl.specs.Kinds.{is_sound};
ghost use Rattle.simplicityhl.specs.Kinds.{is_width};

use hl_syntax::{HlType, HlTypes};
use hl_types::is_list_bound;

/// Whether a type has the widths, counts and bounds that types have.
#[cycle(sound)]
pub(crate) fn is_sound(kind: &HlType) -> bool
    ensures { result ≡ is_sound kind.now }
{
    match kind {
        HlType::Bool => true,
        HlType::UInt(width) => is_word_width(*width),
        HlType::Tuple(parts) => are_sound(parts),
        HlType::Array(item, count) => is_sound(item.get()) && *count <= 65_536,
        HlType::List(item, bound) => is_sound(item.get()) && is_list_bound(*bound),
        HlType::Option(item) => is_sound(item.get()),
        HlType::Either(left, right) => is_sound(left.get()) && is_sound(right.get()),
    }
}

/// Whether each part of a tuple's type is sound.
#[cycle(sound)]
pub(crate) fn are_sound(parts: &HlTypes) -> bool
    ensures { result ≡ list_all (λ part. part) (map is_sound parts.now) }
{
    'parts: for part in parts.as_slice() {
        if !is_sound(part) {
            return false;
        }
    }
    true
}

/// Whether numbers have this width.
fn is_word_width(width: u16) -> bool
    ensures { result ≡ is_width width }
{
    matches!(width, 1 | 2 | 4 | 8 | 16 | 32 | 64 | 128 | 256)
}
