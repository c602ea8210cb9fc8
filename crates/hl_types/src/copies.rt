//! Copies of types.

ghost use Rattle.std.specs.Prelude.{◌≡◌, IfOk};

use hl_syntax::{HlType, HlTypes};
use lists::Boxed;
use std::alloc::{AllocError, Global};

/// A copy of a type.
pub fn copy_type(alloc: Global, kind: &HlType) -> Result<HlType, AllocError>
    ensures { IfOk result (λ copy. copy ≡ kind.now) }
{
    match kind {
        HlType::Bool => Ok(HlType::Bool),
        HlType::UInt(width) => Ok(HlType::UInt(*width)),
        HlType::Tuple(parts) => {
            let mut copies = HlTypes::new(alloc);
            'parts: for part in parts.as_slice() {
                let copy = copy_type(alloc, part)?;
                copies.push(copy)?;
            }
            Ok(HlType::Tuple(copies))
        }
        HlType::Array(item, count) => {
            let item = copy_type(alloc, item.get())?;
            Ok(HlType::Array(Boxed::new(alloc, item)?, *count))
        }
        HlType::List(item, bound) => {
            let item = copy_type(alloc, item.get())?;
            Ok(HlType::List(Boxed::new(alloc, item)?, *bound))
        }
        HlType::Option(item) => {
            let item = copy_type(alloc, item.get())?;
            Ok(HlType::Option(Boxed::new(alloc, item)?))
        }
        HlType::Either(left, right) => {
            let left = copy_type(alloc, left.get())?;
            let right = copy_type(alloc, right.get())?;
            Ok(HlType::Either(Boxed::new(alloc, left)?, Boxed::new(alloc, right)?))
        }
    }
}
