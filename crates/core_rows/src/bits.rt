//! The bits of a small program, and the codes of naturals.

use cell_bits::BitWriter;
use std::test::Fail;

#[test]
fn the_bits_of_a_swap(rt: HostRuntime) -> Result<(), Fail> {
    let mut writer = BitWriter::new(rt.alloc());
    assert!(rt; writer.is_empty());
    writer.push_natural(4)?;
    for (width, code, distances) in [
        (5, 8, [0, 0]),
        (5, 7, [1, 0]),
        (5, 6, [2, 0]),
        (5, 2, [2, 1]),
    ] {
        writer.push_number(code, width)?;
        for distance in distances {
            if distance > 0 {
                writer.push_natural(distance)?;
            }
        }
    }
    assert_eq!(rt; writer.len(), 34);
    writer.push(true)?;
    writer.cut(34);
    let bytes = writer.finish()?;
    assert_eq!(rt; bytes.as_slice(), [0xC1, 0x07, 0x1A, 0x0A, 0x00].as_slice());
    Ok(())
}

#[test]
fn codes_of_naturals(rt: HostRuntime) -> Result<(), Fail> {
    for (value, bits, code) in [
        (1, 1, 0),
        (2, 3, 0b100),
        (3, 3, 0b101),
        (4, 6, 0b110000),
        (8, 7, 0b1101000),
    ] {
        let mut writer = BitWriter::new(rt.alloc());
        writer.push_natural(value)?;
        assert_eq!(rt; writer.len(), bits, "at {value}");
        let bytes = writer.finish()?;
        assert_eq!(rt;
            bytes.as_slice(),
            [code << (8 - bits)].as_slice(),
            "at {value}"
        );
    }
    Ok(())
}
