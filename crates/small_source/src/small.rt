//! Small functions, and why none was read.

ghost use Rattle.std.specs.Prelude.{◌≡◌, IfOk};
ghost use Rattle.small_source.specs.declared.small.SmallRefusal.TheVariants.{OutOfMemory};

use std::alloc::{AllocError, AllocFailed, Global};
use std::marker::Model;

/// The bytes of a name, which are ASCII letters, digits and `_`.
#[derive(Debug, Drop)]
pub struct Name {
    bytes: Vec<u8>,
}

impl Model for Name {
    ghost use Rattle.std.specs.Prelude.{ℕ, List};

    ghost Value = { List ℕ };

    ghost view = { λ n. n.bytes.items };
}

impl Name {
    pub(crate) fn copy_of(alloc: Global, bytes: &[u8]) -> Result<Name, AllocError>
        ensures { IfOk result (λ name. name ≡ bytes.now) }
    {
        Ok(Name {
            bytes: Vec::from_slice(alloc, bytes)?,
        })
    }

    pub fn as_bytes(&self) -> &[u8]
        ensures { result.now ≡ self.now }
    {
        self.bytes.as_slice()
    }
}

/// What a small function gives.
#[derive(Debug, Drop)]
pub enum Body {
    /// A name, and the offset of its first byte in the text.
    Named(Name, usize),
    Paired(Box<Body>, Box<Body>),
}

/// A function over bytes: the names of its parameters, and what it gives.
#[derive(Debug, Drop)]
pub struct SmallFunction {
    pub parameters: Vec<Name>,
    pub body: Body,
}

/// Why no function was read.
#[derive(Clone, Copy, Debug, PartialEq, Eq)]
pub enum SmallRefusal {
    /// The text isn't a small source for the asked name.
    NotSmall,
    OutOfMemory,
}

impl From<AllocError> for SmallRefusal {
    ghost from_gives = { λ _ e. e ≡ OutOfMemory };

    fn from(_error: AllocError) -> SmallRefusal {
        SmallRefusal::OutOfMemory
    }
}

impl<T: Drop> From<AllocFailed<T>> for SmallRefusal {
    ghost from_gives = { λ _ e. e ≡ OutOfMemory };

    fn from(_error: AllocFailed<T>) -> SmallRefusal {
        SmallRefusal::OutOfMemory
    }
}

/// How a result type is nested.
#[derive(Drop)]
pub(crate) enum Shape {
    Byte,
    Both(Box<Shape>, Box<Shape>),
}
