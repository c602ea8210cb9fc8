//! Hostile bits: what a program's bytes are refused for, and the compact codes of values.

ghost use Rattle.std.specs.Prelude.{◌<◌, ◌≤◌, length};

use bit_codec::{CodecRefusal, CompactRefusal, read_compact, read_program, write_compact};
use cell_bits::{BitReader, BitRefusal, BitWriter};
use std::alloc::{AllocError, Global};
use std::test::Fail;
use type_table::{TypeId, TypeTable};

/// Bytes that are no program, and what they are refused for.
static HOSTILE: [(&[u8], CodecRefusal); 11] = [
    (&[], CodecRefusal::EndOfBits { at: 0 }),
    (&[0x00], CodecRefusal::BadDistance { node: 0 }),
    (&[0x0C], CodecRefusal::Disconnect { at: 1 }),
    (&[0x2C], CodecRefusal::Reserved { at: 1 }),
    (&[0x60], CodecRefusal::JetCode { at: 1 }),
    (&[0x80], CodecRefusal::EndOfBits { at: 8 }),
    (&[0xF1, 0x00], CodecRefusal::NaturalTooLarge { at: 0 }),
    (&[0xF0, 0x40, 0x00, 0x01], CodecRefusal::TooManyNodes),
    (&[0x25], CodecRefusal::BadPadding { at: 7 }),
    (&[0x24, 0x00], CodecRefusal::BadPadding { at: 8 }),
    (&[0x5A, 0x80], CodecRefusal::WordTooWide { node: 0 }),
];

/// The same of a byte, then the 32 zeros of a hidden side, and then these bytes.
static HIDDEN: [(u8, &[u8], CodecRefusal); 3] = [
    (0x30, &[], CodecRefusal::HiddenRoot),
    (0x8C, &[0x10], CodecRefusal::BothHidden { node: 1 }),
    (0x8C, &[0x60], CodecRefusal::HiddenPlace { node: 1 }),
];

/// What bytes are read as: how many nodes, or the refusal.
fn nodes_of(alloc: Global, bytes: &[u8]) -> Result<usize, CodecRefusal> {
    read_program(alloc, bytes).map(|nodes| nodes.len())
}

/// A byte, 32 zeros, and further bytes.
fn around_zeros(alloc: Global, first: u8, last: &[u8]) -> Result<Vec<u8>, AllocError> {
    let mut bytes = Vec::new(alloc);
    bytes.push(first)?;
    bytes.extend_from_slice(&[0; 32])?;
    bytes.extend_from_slice(last)?;
    Ok(bytes)
}

#[test]
fn refuses_hostile_programs(rt: HostRuntime) -> Result<(), Fail> {
    for (bytes, want) in HOSTILE.iter() {
        assert_eq!(rt; nodes_of(rt.alloc(), bytes), Err(*want));
    }
    for (first, last, want) in HIDDEN.iter() {
        let bytes = around_zeros(rt.alloc(), *first, last)?;
        assert_eq!(rt; nodes_of(rt.alloc(), bytes.as_slice()), Err(*want));
    }
    Ok(())
}

#[test]
fn goes_through_bits(rt: HostRuntime) -> Result<(), Fail> {
    let mut bits = BitReader::new(&[0b1010_1101, 0x80]);
    assert_eq!(rt; bits.bit(), Ok(true));
    assert_eq!(rt; bits.number(3), Ok(2));
    assert_eq!(rt; bits.natural(), Ok(12));
    assert_eq!(rt; bits.at(), 11);
    assert_eq!(rt; bits.number(8), Err(BitRefusal::EndOfBits { at: 16 }));
    assert_eq!(rt; bits.at(), 11);
    assert_eq!(rt; bits.tail(), Ok(()));
    bits.back(8);
    assert_eq!(rt; bits.tail(), Err(BitRefusal::BadPadding { at: 8 }));
    Ok(())
}

/// Whether a value of a type is read behind so many bits, and written again as bytes in so many bits; or that the bits
/// end in it, at their number.
fn reads_as(
    alloc: Global,
    types: &TypeTable,
    kind: TypeId,
    bytes: &[u8],
    skipped: u32,
    want: Result<(u128, &[u8]), u128>,
) -> Result<bool, Fail>
    requires there { kind < length types.now }
    requires narrow { skipped ≤ 64 }
{
    let mut bits = BitReader::new(bytes);
    let _front = bits.number(skipped);
    let start = bits.at();
    match read_compact(alloc, &mut bits, kind, types) {
        Ok(value) => {
            let mut again = BitWriter::new(alloc);
            write_compact(alloc, &value, &mut again)?;
            let count = again.len();
            let code = again.finish()?;
            let read = bits.at().checked_sub(start);
            Ok(want == Ok((count, code.as_slice())) && read == Some(count))
        }
        Err(CompactRefusal::EndOfBits { at }) => Ok(want == Err(at) && bits.at() == start),
        Err(CompactRefusal::OutOfMemory) => Ok(false),
    }
}

/// Bytes, how many bits to pass over, and what two options of a byte are read as from there: how many bits the value
/// has, with the bytes that it is written as, or the place where the bits end.
static CODES: [(&[u8], u32, Result<(u128, &[u8]), u128>); 8] = [
    (&[], 0, Err(0)),
    (&[0xAD], 0, Err(8)),
    (&[0xAD, 0x00], 0, Ok((10, &[0xAD, 0x00]))),
    (&[0xAD, 0x56], 0, Err(16)),
    (&[0xAD, 0x56, 0xBF], 0, Ok((18, &[0xAD, 0x56, 0x80]))),
    (&[0x56], 1, Err(8)),
    (&[0x56, 0x80], 1, Ok((10, &[0xAD, 0x00]))),
    (&[0xC7], 2, Ok((2, &[0x00]))),
];

#[test]
#[tactic(auto, using(type_table::proofs::Growth::grown_length))]
fn reads_and_writes_compact_codes(rt: HostRuntime) -> Result<(), Fail> {
    let mut types = TypeTable::new(rt.alloc());
    let one = types.unit()?;
    let bit = types.sum(one, one)?;
    let byte = types.word(8)?;
    let option = types.sum(one, byte)?;
    let pair = types.product(option, option)?;
    for (bytes, skipped, want) in CODES.iter() {
        if *skipped <= 64 {
            assert!(rt; reads_as(rt.alloc(), &types, pair, bytes, *skipped, *want)?);
        }
    }
    assert!(rt; reads_as(rt.alloc(), &types, one, &[], 0, Ok((0, &[])))?);
    assert!(rt; reads_as(rt.alloc(), &types, bit, &[0x80], 0, Ok((1, &[0x80])))?);
    assert!(rt; reads_as(rt.alloc(), &types, bit, &[0x80], 8, Err(8))?);
    Ok(())
}
