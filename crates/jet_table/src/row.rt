//! Rows of the table of jets.

use word_math::Op;

/// A type of an argument or a result: a truth value, or a number of so many bits.
#[derive(Clone, Copy, Debug, PartialEq, Eq)]
pub enum JetKind {
    Bool,
    UInt(u16),
}

/// A jet: its name, what it does, its lesser and its greater width, and the types of its arguments and of its results, those that are there first.
#[derive(Clone, Copy, Debug)]
pub struct JetRow {
    pub name: &'static str,
    pub op: Op,
    pub narrow: u16,
    pub wide: u16,
    pub arguments: [Option<JetKind>; 4],
    pub results: [Option<JetKind>; 2],
}
