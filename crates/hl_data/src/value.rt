//! Values of the source language, and values by name.

use hl_syntax::HlType;
use lists::{Boxed as Box, Sequence, Text};
use word_math::Word;

pub type HlValues = Sequence<HlValue>;

/// Names in their order.
pub type Names = Sequence<Text>;

/// Values by their names.
pub type Entries = Sequence<Entry>;

/// A value of the source language.
#[derive(Drop)]
pub enum HlValue {
    Bool(bool),
    /// A number of so many bits as its word.
    Number(Word),
    Tuple(HlValues),
    Array(HlValues),
    List(HlValues),
    /// `None`
    Nothing,
    Some(Box<HlValue>),
    Left(Box<HlValue>),
    Right(Box<HlValue>),
}

/// A value with its name and its type.
#[derive(Drop)]
pub struct Entry {
    pub name: Text,
    pub kind: HlType,
    pub value: HlValue,
}
