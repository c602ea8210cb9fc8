//! A stack of ids.

ghost use Rattle.std.specs.Prelude.{◌≡◌, ◌<◌, ◌≤◌, [], ◌∷◌, length, take, drop, reverse, slice_get, Some, IfSome, IfNone, OnOk, OnErr};

use std::alloc::{AllocError, Global};
use std::marker::Model;

/// Ids, which contracts see as a list, the last that was put there first.
#[derive(Drop)]
pub(crate) struct Stack {
    ids: Vec<usize>,
}

impl Model for Stack {
    ghost use Rattle.std.specs.Prelude.{ℕ, List, reverse};

    ghost Value = { List ℕ };

    ghost view = { λ stack. reverse stack.ids.items };
}

impl Stack {
    /// No id, which takes no memory.
    pub(crate) fn new(alloc: Global) -> Stack
        ensures { result ≡ [] }
    {
        Stack {
            ids: Vec::new(alloc),
        }
    }

    /// Puts an id on top.
    pub(crate) fn push(&mut self, id: usize) -> Result<(), AllocError>
        ensures ok { OnOk result (self.new ≡ id ∷ self.old) }
        ensures err { OnErr result (self.new ≡ self.old) }
    {
        self.ids.push(id)?;
        Ok(())
    }

    /// Takes the top one off.
    pub(crate) fn pop(&mut self) -> Option<usize>
        ensures some { IfSome result (λ id. self.old ≡ id ∷ self.new) }
        ensures none { IfNone result ((self.old ≡ []) × (self.new ≡ [])) }
    {
        self.ids.pop()
    }

    /// So many from the top, the top one last.
    pub(crate) fn last(&self, count: usize) -> &[usize]
        requires { count ≤ length self.now }
        ensures { result.now ≡ reverse (take count self.now) }
    {
        &self.ids[self.ids.len() - count..]
    }

    /// The top one.
    pub(crate) fn top(&self) -> usize
        requires { 0 < length self.now }
        ensures { self.now ≡ result ∷ drop 1 self.now }
    {
        self.ids[self.ids.len() - 1]
    }

    /// The one that lies under so many.
    pub(crate) fn below(&self, count: usize) -> usize
        requires { count < length self.now }
        ensures { slice_get self.now count ≡ Some result }
    {
        self.ids[self.ids.len() - 1 - count]
    }

    /// Puts an id in place of so many, or of none.
    pub(crate) fn put(&mut self, count: usize, id: usize) -> Result<(), AllocError>
        requires enough { count ≤ length self.old }
        ensures ok { OnOk result (self.new ≡ id ∷ drop count self.old) }
        ensures err { OnErr result (self.new ≡ self.old) }
    {
        if count == 0 {
            return self.push(id);
        }
        self.replace(count, id);
        Ok(())
    }

    /// Puts an id in place of so many, at least one, which takes no memory.
    pub(crate) fn replace(&mut self, count: usize, id: usize)
        requires some { 0 < count }
        requires enough { count ≤ length self.old }
        ensures { self.new ≡ id ∷ drop count self.old }
    {
        let first = self.ids.len() - count;
        self.ids[first] = id;
        self.ids.truncate(first + 1);
    }

    /// Takes all off.
    pub(crate) fn clear(&mut self)
        ensures { self.new ≡ [] }
    {
        self.ids.clear();
    }
}
