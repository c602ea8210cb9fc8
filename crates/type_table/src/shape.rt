/// The number of a type in its table.
pub type TypeId = usize;

/// A type as its table keeps it: the parts are ids of the same table.
#[derive(Clone, Copy, Debug, PartialEq, Eq, Hash)]
pub enum Shape {
    One,
    Sum(TypeId, TypeId),
    Product(TypeId, TypeId),
}
