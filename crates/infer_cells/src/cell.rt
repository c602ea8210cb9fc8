//! Cells and equations.

/// What is known of a type: nothing, that it is another cell's, or how it is made.
#[derive(Clone, Copy, Debug, PartialEq, Eq)]
pub(crate) enum Cell {
    Free,
    /// The type is that of a cell of a lower number.
    Link(usize),
    One,
    Sum(usize, usize),
    Product(usize, usize),
}

/// Two cells whose types are to be one.
#[derive(Clone, Copy, Debug, PartialEq, Eq)]
pub(crate) struct Equation {
    pub left: usize,
    pub right: usize,
}

/// The cells of a node's source and target.
#[derive(Clone, Copy, Debug, PartialEq, Eq)]
pub(crate) struct Place {
    pub source: usize,
    pub target: usize,
}
