//! Variables in scope.

ghost use Rattle.std.specs.Prelude.{◌≡◌, ◌++◌, [], List, length, option_copied, OnOk, find, bytes_eq, reverse};
ghost use Rattle.hl_syntax.specs.declared.kinds.TypedName.{TypedName};
ghost use Rattle.hl_rules.specs.Places.{has_name, variable_type};
ghost use Rattle.hl_scope.specs.Contexts.{OutermostLeft};

use hl_syntax::{HlType, TypedName, Wanted};
use std::alloc::{AllocError, Global};
use std::marker::Model;

/// The variables in scope with their types, which a contract sees as a list with the innermost
/// first.
#[derive(Drop)]
pub struct Scope {
    names: Vec<TypedName>,
}

impl Model for Scope {
    ghost use Rattle.std.specs.Prelude.{List, reverse};
    ghost use Rattle.hl_syntax.specs.declared.kinds.TypedName.{TypedName};
    ghost use Rattle.hl_syntax.specs.contracts.kinds.HlType as e;
    ghost use Rattle.std.specs.Coded.{codes};

    ghost Value = { List TypedName };

    ghost coded = { Prim.hlevel (codes, e.the_row.coded) };

    ghost view = { λ scope. reverse scope.names.items };
}

/// Whether a name is among these.
pub(crate) fn has_name(names: &[TypedName], name: &str) -> bool
    ensures { result ≡ has_name names.now name.now }
{
    names.iter().any(|known| name == known.name.as_str())
}

/// The first of a name.
pub(crate) fn first_named<'a>(names: &'a [TypedName], name: &str) -> Option<&'a TypedName>
    ensures { option_copied result ≡ find (λ known. bytes_eq name.now known.name) names.now }
{
    names.iter().find(|known| name == known.name.as_str())
}

/// The last of a name.
fn innermost<'a>(names: &'a [TypedName], name: &str) -> Option<&'a TypedName>
    ensures { option_copied result ≡ find (λ known. bytes_eq name.now known.name) (reverse names.now) }
{
    names.iter().rev().find(|known| name == known.name.as_str())
}

impl Scope {
    /// No variable, which takes no memory.
    pub fn new(alloc: Global) -> Scope
        ensures { result ≡ [] }
    {
        Scope {
            names: Vec::new(alloc),
        }
    }

    pub fn len(&self) -> usize
        ensures { result ≡ length self.now }
    {
        self.names.len()
    }

    /// The type of the innermost variable of a name.
    pub fn type_of(&self, name: &str) -> Option<&HlType>
        ensures { option_copied result ≡ variable_type self.now name.now }
    {
        match innermost(self.names.as_slice(), name) {
            Some(known) => Some(&known.kind),
            None => None,
        }
    }

    /// Puts variables before those in scope. Where there is no memory some may be missing.
    pub fn bind(&mut self, bound: Wanted) -> Result<(), AllocError>
        ensures { OnOk result (self.new ≡ bound ++ self.old) }
    {
        let mut bound = bound.into_vec();
        while let Some(variable) = bound.pop() {
            self.names.push(variable)?;
        }
        Ok(())
    }

    /// Leaves the outermost variables alone, so many.
    pub fn leave(&mut self, outer: usize)
        ensures { OutermostLeft self.old outer self.new }
    {
        self.names.truncate(outer);
    }
}
