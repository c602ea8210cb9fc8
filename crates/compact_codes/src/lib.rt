//! The compact codes of values, both ways: a bit for each tag, and no padding.
#![tactic(auto)]

ghost use Rattle.compact_codes.specs.Codes.{CodesAreInverse};

mod read;
mod refusal;
mod write;

pub use read::read_compact;
pub use refusal::CompactRefusal;
pub use write::write_compact;

/// Where the code of a value of the type stands, that value is what is read there, and no refusal is right.
pub fn codes_are_inverse_law()
    ensures { CodesAreInverse }
{}
