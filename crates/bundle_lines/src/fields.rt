//! What the lines of a bundle say.

ghost use Rattle.std.specs.Prelude.{◌≡◌, IfOk, IfErr, option_map};
ghost use Rattle.bundle_lines.specs.Bundles.{bundle, Decodes, IsRoot, RefusesBits, RefusesRoot};

use crate::refusal::LineRefusal;
use base64::DecodeAllocError;
use base64::engine::general_purpose::STANDARD;
use hex::FromHex;
use std::alloc::{AllocError, Global};

/// A bundle: the program in base64, its root in 64 hexadecimal digits and, where there is one, the witness stream in
/// base64. Each line ends with a line feed.
pub fn write_bundle(
    alloc: Global,
    program: &[u8],
    root: &[u8; 32],
    witness: Option<&[u8]>,
) -> Result<Vec<u8>, AllocError>
    ensures { IfOk result (λ text. text.items ≡
        bundle program.now root.now (option_map (λ stream. stream.now) witness.entry)) }
{
    let mut text = STANDARD.encode(alloc, program)?;
    text.push('\n')?;
    text.push_str(hex::encode(alloc, root.as_slice())?.as_str())?;
    text.push('\n')?;
    if let Some(stream) = witness {
        STANDARD.encode_string(stream, &mut text)?;
        text.push('\n')?;
    }
    Ok(text.into_bytes())
}

/// The bytes of a line in base64 with the alphabet of RFC 4648 and padding.
///
/// # Errors
///
/// `NotBase64` exactly where the line isn't that.
pub fn decode_bits(alloc: Global, line: &[u8]) -> Result<Vec<u8>, LineRefusal>
    ensures ok { IfOk result (λ bytes. Decodes line.now bytes.items) }
    ensures err { IfErr result (RefusesBits line.now) }
{
    STANDARD.decode(alloc, line).map_err(|error| match error {
        DecodeAllocError::DecodeError(_) => LineRefusal::NotBase64,
        DecodeAllocError::OutOfMemory => LineRefusal::OutOfMemory,
    })
}

/// The root that a line of 64 hexadecimal digits spells, in either case.
///
/// # Errors
///
/// `NotHex` exactly where the line isn't that.
pub fn decode_root(line: &[u8]) -> Result<[u8; 32], LineRefusal>
    ensures ok { IfOk result (IsRoot line.now) }
    ensures err { IfErr result (RefusesRoot line.now) }
{
    match <[u8; 32] as FromHex>::from_hex(line) {
        Ok(root) => Ok(root),
        Err(_) => Err(LineRefusal::NotHex),
    }
}
