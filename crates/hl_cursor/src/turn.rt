//! Turns of a repetition.

/// How a repetition goes on after a turn.
#[derive(Drop)]
pub enum Turn<T> {
    /// More may come.
    More,
    /// It is over, with what the last turn found.
    Last(T),
}
