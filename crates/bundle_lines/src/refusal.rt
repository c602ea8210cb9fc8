//! Why a line isn't read.

/// Why a line isn't read.
#[derive(Clone, Copy, Debug, PartialEq, Eq)]
pub enum LineRefusal {
    /// No base64 of the standard alphabet with padding.
    NotBase64,
    /// Not 64 hexadecimal digits.
    NotHex,
    OutOfMemory,
}
