//! From bits to a value.

ghost use Rattle.std.specs.Prelude.{◌≡◌, ◌<◌, length, IfOk, IfErr, OnErr};
ghost use Rattle.cell_bits.specs.Places.{rest};
ghost use Rattle.compact_codes.specs.Codes.{IsReadAt, Ends};
ghost use Rattle.compact_codes.specs.Frames.{after, read_at, AreIn, Descends, Stops, GoesOn};
ghost use Rattle.core_data.specs.Data.{value_of};
ghost use Rattle.spelling.specs.Reading.{Got};
ghost use Rattle.type_table.specs.Kinds.{kind_at};

use crate::refusal::CompactRefusal;
use cell_bits::BitReader;
use core_data::CoreValue;
use std::alloc::Global;
use type_table::{Shape, TypeId, TypeTable};

/// What is left to do with a value once it is read.
#[derive(Drop)]
pub(crate) enum Frame {
    /// Tags it as left.
    Left,
    /// Tags it as right.
    Right,
    /// Keeps it as the first of a pair whose second is of the type, and reads that.
    Second(TypeId),
    /// Pairs it with the first.
    First(CoreValue),
}

/// Reads the value of a type whose compact code stands next. A list of what is left to do is kept, so a deep type
/// takes no stack.
///
/// # Errors
///
/// `EndOfBits` exactly where the bits end inside a value of the type. After an error the reader is as before.
pub fn read_compact(
    alloc: Global,
    bits: &mut BitReader,
    kind: TypeId,
    types: &TypeTable,
) -> Result<CoreValue, CompactRefusal>
    requires { kind < length types.now }
    ensures value { IfOk result (λ value. IsReadAt (kind_at types.now kind) (value_of value) bits.old bits.new) }
    ensures ends { IfErr result (λ refusal. Ends refusal (kind_at types.now kind) bits.old) }
    ensures err { OnErr result (bits.new ≡ bits.old) }
{
    let start = bits.at();
    let answer = read_parts(alloc, bits, kind, types);
    if answer.is_err() {
        bits.back(start);
    }
    answer
}

/// Reads a value of a type; after an error some of its bits may be read.
fn read_parts(
    alloc: Global,
    bits: &mut BitReader,
    kind: TypeId,
    types: &TypeTable,
) -> Result<CoreValue, CompactRefusal>
    requires { kind < length types.now }
    ensures value { IfOk result (λ value.
        read_at types.now kind bits.old ≡ Got (value_of value) bits.new.at (rest bits.new)) }
    ensures ends { IfErr result (λ refusal. Stops refusal (read_at types.now kind bits.old)) }
    ensures on { GoesOn bits.old bits.new }
{
    let mut frames = Vec::new(alloc);
    let mut value = read_first(bits, kind, types, &mut frames)?;
    while let Some(frame) = frames.pop() {
        value = match frame {
            Frame::Left => CoreValue::Left(Box::new(alloc, value)?),
            Frame::Right => CoreValue::Right(Box::new(alloc, value)?),
            Frame::First(first) => {
                CoreValue::Pair(Box::new(alloc, first)?, Box::new(alloc, value)?)
            }
            Frame::Second(kind) => {
                frames.push(Frame::First(value))?;
                read_first(bits, kind, types, &mut frames)?
            }
        };
    }
    Ok(value)
}

/// Goes down to the first part of a type that is the unit type, gives that part's value, and leaves what is to be done
/// with it.
fn read_first(
    bits: &mut BitReader,
    kind: TypeId,
    types: &TypeTable,
    frames: &mut Vec<Frame>,
) -> Result<CoreValue, CompactRefusal>
    requires there { kind < length types.now }
    requires within { AreIn types.now frames.old.items }
    ensures value { IfOk result (λ value.
        Descends types.now kind frames.old.items frames.new.items (value_of value) bits.old bits.new) }
    ensures ends { IfErr result (λ refusal.
        Stops refusal (after types.now frames.old.items (read_at types.now kind bits.old))) }
    ensures on { GoesOn bits.old bits.new }
{
    let mut part = kind;
    loop {
        match types.shape(part) {
            Shape::One => return Ok(CoreValue::Unit),
            Shape::Sum(left, right) => {
                let Ok(tag) = bits.bit() else {
                    return Err(CompactRefusal::EndOfBits { at: bits.at() });
                };
                if tag {
                    frames.push(Frame::Right)?;
                    part = right;
                } else {
                    frames.push(Frame::Left)?;
                    part = left;
                }
            }
            Shape::Product(first, second) => {
                frames.push(Frame::Second(second))?;
                part = first;
            }
        }
    }
}
