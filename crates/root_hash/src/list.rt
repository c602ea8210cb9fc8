//! Lists of roots.

ghost use Rattle.std.specs.Prelude.{◌≡◌, ◌<◌, [], ◌∷◌, ◌++◌, length, slice_get, OnOk, OnErr, Some};

use std::alloc::{AllocError, Global};
use std::marker::Model;

/// A list of roots, each of 32 bytes.
#[derive(Drop)]
pub struct Roots {
    roots: Vec<[u8; 32]>,
}

impl Model for Roots {
    ghost use Rattle.std.specs.Prelude.{ℕ, List};

    ghost Value = { List (List ℕ) };

    ghost view = { λ r. r.roots.items };
}

impl Roots {
    /// The empty list. It takes no memory.
    pub fn new(alloc: Global) -> Roots
        ensures { result ≡ [] }
    {
        Roots {
            roots: Vec::new(alloc),
        }
    }

    /// Appends a root. After an error the list is as before.
    pub fn push(&mut self, root: [u8; 32]) -> Result<(), AllocError>
        ensures ok { OnOk result (self.new ≡ self.old ++ root ∷ []) }
        ensures err { OnErr result (self.new ≡ self.old) }
    {
        self.roots.push(root)?;
        Ok(())
    }

    /// The number of roots.
    pub fn len(&self) -> usize
        ensures { result ≡ length self.now }
    {
        self.roots.len()
    }

    /// The root at a place.
    pub fn get(&self, place: usize) -> &[u8; 32]
        requires { place < length self.now }
        ensures { slice_get self.now place ≡ Some result.now }
    {
        &self.roots[place]
    }

    /// The roots in their order.
    pub fn as_slice(&self) -> &[[u8; 32]]
        ensures { result.now ≡ self.now }
    {
        self.roots.as_slice()
    }
}
