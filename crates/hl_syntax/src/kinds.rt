//! Types of the source language.

use lists::{Boxed as Box, Sequence, Text};

pub type HlTypes = Sequence<HlType>;

/// Aliases with the types that they stand for, in the text's order.
pub type Aliases = Sequence<TypedName>;

/// Names that are asked for, with their types.
pub type Wanted = Sequence<TypedName>;

/// A type of the source language, its aliases written out.
#[derive(Drop)]
pub enum HlType {
    Bool,
    /// Numbers of so many bits: 1, 2, 4, up to 256.
    UInt(u16),
    Tuple(HlTypes),
    /// So many items of one type.
    Array(Box<HlType>, u32),
    /// Fewer items of one type than the bound, which is a power of two from 2 up.
    List(Box<HlType>, u32),
    Option(Box<HlType>),
    Either(Box<HlType>, Box<HlType>),
}

/// A name and its type.
#[derive(Drop)]
pub struct TypedName {
    pub name: Text,
    pub kind: HlType,
}
