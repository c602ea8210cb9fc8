//! From a value to its bits.

ghost use Rattle.std.specs.Prelude.{◌≡◌, ◌++◌, length, take, OnOk, OnErr};
ghost use Rattle.core_data.specs.Data.{value_of};
ghost use Rattle.simplicity.specs.Types.{code};

use cell_bits::BitWriter;
use core_data::CoreValue;
use std::alloc::{AllocError, Global};

/// Appends the compact code of a value. After an error the bits are as before. A list of the parts that are left is
/// kept, so a deep value takes no stack.
pub fn write_compact(
    alloc: Global,
    value: &CoreValue,
    bits: &mut BitWriter,
) -> Result<(), AllocError>
    ensures ok { OnOk result (bits.new ≡ bits.old ++ code (value_of value.now)) }
    ensures err { OnErr result (bits.new ≡ bits.old) }
{
    let kept = bits.len();
    let answer = append_code(alloc, value, bits);
    if answer.is_err() {
        bits.cut(kept);
    }
    answer
}

/// Appends the compact code of a value; after an error some of it may stand there.
fn append_code(alloc: Global, value: &CoreValue, bits: &mut BitWriter) -> Result<(), AllocError>
    ensures ok { OnOk result (bits.new ≡ bits.old ++ code (value_of value.now)) }
    ensures err { OnErr result (take (length bits.old) bits.new ≡ bits.old) }
{
    let mut parts = Vec::new(alloc);
    parts.push(value)?;
    while let Some(part) = parts.pop() {
        match part {
            CoreValue::Unit => {}
            CoreValue::Left(inner) => {
                bits.push(false)?;
                parts.push(inner)?;
            }
            CoreValue::Right(inner) => {
                bits.push(true)?;
                parts.push(inner)?;
            }
            CoreValue::Pair(first, second) => {
                parts.push(second)?;
                parts.push(first)?;
            }
        }
    }
    Ok(())
}
