//! Names with their values.

ghost use Rattle.std.specs.Prelude.{◌≡◌, ◌-◌, ◌≤◌, [], ◌∷◌, length, drop, reverse, Some, None, find, bytes_eq, option_map, MatchOption, OnOk};
ghost use Rattle.hl_meaning.specs.Answer.{known};
ghost use Rattle.hl_meaning.specs.Scopes.{meant};
ghost use Rattle.hl_eval.specs.Outcome.{AnswersMeaning};

use crate::copy::copy_value;
use crate::fault::EvalFault;
use hl_data::HlValue;
use lists::Text;
use std::alloc::{AllocError, Global};
use std::marker::Model;

/// A name with its value.
#[derive(Drop)]
struct Bound {
    name: Text,
    value: HlValue,
}

/// Names with their values; a name means the value that was bound last.
#[derive(Drop)]
pub(crate) struct Scope {
    bindings: Vec<Bound>,
}

impl Model for Scope {
    ghost use Rattle.std.specs.Prelude.{List, map, reverse};
    ghost use Rattle.std.specs.Coded.{codes};
    ghost use Rattle.hl_data.specs.contracts.value.HlValue as values;
    ghost use Rattle.hl_meaning.specs.Scopes.{Binding};

    ghost Value = { List Binding };

    ghost coded = { Prim.hlevel (codes, values.the_row.coded) };

    ghost view = { λ s. reverse (map (λ b. record { name = b.name; value = b.value }) s.bindings.items) };
}

impl Scope {
    /// The scope of no names.
    pub(crate) fn new(alloc: Global) -> Scope
        ensures { result ≡ [] }
    {
        Scope {
            bindings: Vec::new(alloc),
        }
    }

    /// The number of its bindings.
    pub(crate) fn len(&self) -> usize
        ensures { result ≡ length self.now }
    {
        self.bindings.len()
    }

    /// Binds a name.
    pub(crate) fn bind(&mut self, name: &Text, value: HlValue) -> Result<(), AllocError>
        ensures { OnOk result (self.new ≡ record { name = name.now; value = value } ∷ self.old) }
    {
        let name = name.clone()?;
        self.bindings.push(Bound { name, value })?;
        Ok(())
    }

    /// Drops the bindings that were made since there were so many.
    pub(crate) fn truncate(&mut self, len: usize)
        requires { len ≤ length self.old }
        ensures { self.new ≡ drop (length self.old - len) self.old }
    {
        self.bindings.truncate(len);
    }

    /// The value that a name means.
    pub(crate) fn find(&self, name: &Text) -> Option<&HlValue>
        ensures { MatchOption result
            (meant name.now self.now ≡ None)
            (λ v. meant name.now self.now ≡ Some v.now) }
    {
        match last_of(self.bindings.as_slice(), name.as_str()) {
            Some(bound) => Some(&bound.value),
            None => None,
        }
    }
}

/// The last of the bindings that has a name.
fn last_of<'a>(bindings: &'a [Bound], name: &str) -> Option<&'a Bound>
    ensures { option_map (λ b. b.now) result ≡ find (λ b. bytes_eq name.now b.name) (reverse bindings.now) }
{
    bindings
        .iter()
        .rev()
        .find(|bound| name == bound.name.as_str())
}

/// A copy of the value that a name means in a scope.
pub(crate) fn value_of(alloc: Global, scope: &Scope, name: &Text) -> Result<HlValue, EvalFault>
    ensures { AnswersMeaning (known (meant name.now scope.now)) result }
{
    match scope.find(name) {
        Some(value) => Ok(copy_value(alloc, value)?),
        None => Err(EvalFault::NoAnswer),
    }
}
