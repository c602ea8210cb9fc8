//! Rows of bundles' lines, as a table for each call.

use crate::{LineRefusal, decode_bits, decode_root, split, write_bundle};
use std::test::Fail;

/// A file and its lines.
static FILES: [(&[u8], &[&[u8]]); 9] = [
    (b"", &[b""]),
    (b"\n", &[b""]),
    (b"\r\n", &[b""]),
    (b"wQ==", &[b"wQ=="]),
    (b"wQ==\r\n", &[b"wQ=="]),
    (b"wQ==\n\n", &[b"wQ==", b""]),
    (b"a\r\n\nb\r", &[b"a", b"", b"b\r"]),
    (b"a\r\r\nb\n", &[b"a\r", b"b"]),
    (b"a\nb\nc\nd\n", &[b"a", b"b", b"c", b"d"]),
];

#[test]
fn splits_files(rt: HostRuntime) -> Result<(), Fail> {
    for (file, wanted) in FILES.iter() {
        let lines = split(rt.alloc(), file)?;
        assert_eq!(rt; lines.len(), wanted.len());
        for (line, wanted) in lines.as_slice().iter().zip(wanted.iter()) {
            assert_eq!(rt; line.as_slice(), *wanted);
        }
    }
    Ok(())
}

/// A line and the bytes that it is in base64.
static BITS: [(&[u8], Result<&[u8], LineRefusal>); 9] = [
    (b"", Ok(b"")),
    (b"wQ==", Ok(b"\xc1")),
    (b"AAECAw==", Ok(b"\x00\x01\x02\x03")),
    (b"+/+/", Ok(b"\xfb\xff\xbf")),
    (b"-_-_", Err(LineRefusal::NotBase64)),
    (b"wQ", Err(LineRefusal::NotBase64)),
    (b"wR==", Err(LineRefusal::NotBase64)),
    (b"wQ== ", Err(LineRefusal::NotBase64)),
    (b"#", Err(LineRefusal::NotBase64)),
];

#[test]
fn decodes_bits(rt: HostRuntime) -> Result<(), Fail> {
    for (line, wanted) in BITS.iter() {
        match (decode_bits(rt.alloc(), line), wanted) {
            (Ok(bytes), Ok(wanted)) => assert_eq!(rt; bytes.as_slice(), *wanted),
            (Err(refusal), Err(wanted)) => assert_eq!(rt; refusal, *wanted),
            (_, _) => return Err(Fail::from("another answer")),
        }
    }
    Ok(())
}

#[test]
fn decodes_roots(rt: HostRuntime) -> Result<(), Fail> {
    let digits = b"00ff0000000000000000000000000000000000000000000000000000000000Aa";
    let mut root = [0; 32];
    root[1] = 255;
    root[31] = 170;
    assert_eq!(rt; decode_root(digits), Ok(root));
    assert_eq!(rt; decode_root(&digits[1..]), Err(LineRefusal::NotHex));
    assert_eq!(rt; decode_root(&digits[2..]), Err(LineRefusal::NotHex));
    assert_eq!(rt; decode_root(b"zz"), Err(LineRefusal::NotHex));
    Ok(())
}

#[test]
fn writes_bundles(rt: HostRuntime) -> Result<(), Fail> {
    let root = [171; 32];
    let two = b"wQ==\nabababababababababababababababababababababababababababababababab\n";
    let three = b"wQ==\nabababababababababababababababababababababababababababababababab\nAA==\n";
    assert_eq!(rt;
        write_bundle(rt.alloc(), b"\xc1", &root, None)?.as_slice(),
        two.as_slice()
    );
    assert_eq!(rt;
        write_bundle(rt.alloc(), b"\xc1", &root, Some(b"\x00"))?.as_slice(),
        three.as_slice()
    );
    Ok(())
}
