//! Core types and core values as trees.

ghost use Rattle.std.specs.Prelude.{◌↔◌, IsTrue};
ghost use Rattle.simplicity.specs.Types.{IsOf};
ghost use Rattle.core_data.specs.Data.{kind_of, value_of};

use lists::Sequence;

/// A core type: the type of one value, of the values of either of two types, or of the pairs of two.
pub enum CoreType {
    One,
    Sum(Box<CoreType>, Box<CoreType>),
    Product(Box<CoreType>, Box<CoreType>),
}

/// A core value: the empty tuple, a value tagged left or right, or a pair.
pub enum CoreValue {
    Unit,
    Left(Box<CoreValue>),
    Right(Box<CoreValue>),
    Pair(Box<CoreValue>, Box<CoreValue>),
}

impl Drop for CoreType {
    /// Turns the tree to the right as it goes, so that a deep type takes no stack.
    #[tactic(auto, using(crate::proofs::Depths::deep_kind))]
    fn drop(mut self) {
        loop {
            match self {
                CoreType::One => return,
                CoreType::Sum(mut left, right) | CoreType::Product(mut left, right) => {
                    self = Box::replace(&mut left, CoreType::One);
                    match self {
                        CoreType::One => self = Box::into_inner(right),
                        CoreType::Sum(first, second) | CoreType::Product(first, second) => {
                            Box::replace(&mut left, CoreType::Product(second, right));
                            self = CoreType::Product(first, left);
                        }
                    }
                }
            }
        }
    }
}

impl Drop for CoreValue {
    /// Turns the tree to the right as it goes, so that a deep value takes no stack.
    #[tactic(auto, using(crate::proofs::Depths::deep_value))]
    fn drop(mut self) {
        loop {
            match self {
                CoreValue::Unit => return,
                CoreValue::Left(inner) | CoreValue::Right(inner) => self = Box::into_inner(inner),
                CoreValue::Pair(mut left, right) => {
                    self = Box::replace(&mut left, CoreValue::Unit);
                    match self {
                        CoreValue::Unit => self = Box::into_inner(right),
                        CoreValue::Left(inner) | CoreValue::Right(inner) => {
                            self = CoreValue::Pair(inner, right);
                        }
                        CoreValue::Pair(first, second) => {
                            Box::replace(&mut left, CoreValue::Pair(second, right));
                            self = CoreValue::Pair(first, left);
                        }
                    }
                }
            }
        }
    }
}

/// A list of core values.
pub type CoreValues = Sequence<CoreValue>;

/// Whether the value is of the type. It calls itself as deep as the value is.
pub fn has_type(value: &CoreValue, kind: &CoreType) -> bool
    ensures { IsTrue result ↔ IsOf (value_of value.now) (kind_of kind.now) }
{
    match kind {
        CoreType::One => match value {
            CoreValue::Unit => true,
            CoreValue::Left(_) => false,
            CoreValue::Right(_) => false,
            CoreValue::Pair(_, _) => false,
        },
        CoreType::Sum(left, right) => match value {
            CoreValue::Left(inner) => has_type(inner, left),
            CoreValue::Right(inner) => has_type(inner, right),
            CoreValue::Unit => false,
            CoreValue::Pair(_, _) => false,
        },
        CoreType::Product(left, right) => match value {
            CoreValue::Pair(first, second) => has_type(first, left) && has_type(second, right),
            CoreValue::Unit => false,
            CoreValue::Left(_) => false,
            CoreValue::Right(_) => false,
        },
    }
}
