//! What a jet gives.

use crate::word::Word;

/// The results of a jet, or that it failed.
#[derive(Clone, Copy, Debug, PartialEq, Eq)]
pub enum JetAnswer {
    Nothing,
    One(Word),
    Two(Word, Word),
    Failed,
}
