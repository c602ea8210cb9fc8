//! Digests under a tag.

ghost use Rattle.std.specs.Prelude.{◌≡◌};
ghost use Rattle.simplicity.specs.Roots as spec;
ghost use Rattle.simplicity.specs.Roots.{absent};

use sha2::{Digest, Sha256};

/// What stands in place of a part that a root doesn't have.
pub(crate) const ABSENT: [u8; 32] = [0; 32];

/// The digest of the tag's digest, the same once more, and two parts.
pub(crate) fn tagged(tag: &[u8], first: &[u8], second: &[u8]) -> [u8; 32]
    ensures { result ≡ spec.tagged tag.now first.now second.now }
{
    let tag = Sha256::digest(tag);
    let mut hasher = Sha256::new();
    hasher.update(tag.as_slice());
    hasher.update(tag);
    hasher.update(first);
    hasher.update(second);
    hasher.finalize()
}

/// The same without parts.
pub(crate) fn constant(tag: &[u8]) -> [u8; 32]
    ensures { result ≡ spec.tagged tag.now absent absent }
{
    tagged(tag, ABSENT.as_slice(), ABSENT.as_slice())
}

/// The same with one part.
pub(crate) fn single(tag: &[u8], part: &[u8; 32]) -> [u8; 32]
    ensures { result ≡ spec.tagged tag.now part.now absent }
{
    tagged(tag, part.as_slice(), ABSENT.as_slice())
}

/// The same with both parts.
pub(crate) fn double(tag: &[u8], first: &[u8; 32], second: &[u8; 32]) -> [u8; 32]
    ensures { result ≡ spec.tagged tag.now first.now second.now }
{
    tagged(tag, first.as_slice(), second.as_slice())
}
