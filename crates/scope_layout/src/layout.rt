//! The layout of a scope.

ghost use Rattle.std.specs.Prelude.{◌≡◌, ◌<◌, [], length, IfOk, OnOk, OnErr};
ghost use Rattle.scope_layout.specs.Layers.{Names, Witnesses, IsWithin, path_of, inside};
ghost use Rattle.scope_layout.specs.Leads.{IsPath};
ghost use Rattle.scope_layout.specs.declared.bound.Sort.TheVariants as sort;

use crate::bound::{Bound, Sort, to_bound, to_layer};
use crate::path::{Path, Route, drop_layers};
use hl_syntax::{HlType, Pattern, TypedName};
use lists::Sequence;
use std::alloc::{AllocError, Global};
use std::marker::Model;

/// Names of witnesses with their types.
pub type WitnessNames = Sequence<TypedName>;

/// Where the values of names stand in the value of a scope.
#[derive(Drop)]
pub struct Layout<'a> {
    root: Bound<'a>,
    /// The innermost last.
    bound: Vec<Bound<'a>>,
}

impl<'a> Model for Layout<'a> {
    ghost use Rattle.std.specs.Prelude.{map, reverse};
    ghost use Rattle.scope_layout.specs.Codes.{coded_scopes};
    ghost use Rattle.scope_layout.specs.Layers.{Scopes, layer_of};

    ghost Value = { Scopes };

    ghost coded = { coded_scopes };

    ghost view = { λ layout. record { root = layer_of layout.root; bound = reverse (map layer_of layout.bound.items) } };
}

impl<'a> Layout<'a> {
    /// The layout of a scope that begins with the names of a pattern, as a function's with its parameters.
    ///
    /// # Errors
    ///
    /// For want of memory.
    pub fn new(alloc: Global, root: &'a Pattern, kind: &'a HlType) -> Result<Layout<'a>, AllocError>
        ensures { IfOk result (λ layout. layout ≡ record { root = Names root.now kind.now; bound = [] }) }
    {
        Ok(Layout {
            root: Bound::Names(root, kind),
            bound: Vec::with_capacity(alloc, 1)?,
        })
    }

    /// Binds the names of a pattern before the scope. Each hides an earlier one of its name.
    ///
    /// # Errors
    ///
    /// For want of memory; then the layout is as before.
    pub fn bind(&mut self, pattern: &'a Pattern, kind: &'a HlType) -> Result<(), AllocError>
        ensures ok { OnOk result (self.new ≡ inside (Names pattern.now kind.now) self.old) }
        ensures err { OnErr result (self.new ≡ self.old) }
    {
        self.bound.push(Bound::Names(pattern, kind))?;
        Ok(())
    }

    /// Binds the tuple of witnesses before the scope. They are found by `witness_path` alone, and hide no variable.
    ///
    /// # Errors
    ///
    /// For want of memory; then the layout is as before.
    pub fn bind_witnesses(&mut self, names: &'a WitnessNames) -> Result<(), AllocError>
        ensures ok { OnOk result (self.new ≡ inside (Witnesses names.now) self.old) }
        ensures err { OnErr result (self.new ≡ self.old) }
    {
        self.bound.push(Bound::Witnesses(names))?;
        Ok(())
    }

    /// Takes back what was bound last.
    pub fn unbind(&mut self)
        requires { 0 < length self.old.bound }
        ensures { IsWithin self.old self.new }
    {
        self.bound.pop();
    }

    /// The path to the value of a variable; None exactly where no pattern binds the name.
    ///
    /// # Errors
    ///
    /// For want of memory.
    pub fn path(&self, name: &str) -> Result<Option<Path>, AllocError>
        ensures path { IfOk result (λ found. found ≡ path_of sort.Variable name.now self.now) }
        ensures leads { IfOk result (λ found. IsPath sort.Variable name.now self.now found) }
    {
        self.path_to(Sort::Variable, name)
    }

    /// The path to the value of a bound witness; None exactly where no bound witness has the name.
    ///
    /// # Errors
    ///
    /// For want of memory.
    pub fn witness_path(&self, name: &str) -> Result<Option<Path>, AllocError>
        ensures path { IfOk result (λ found. found ≡ path_of sort.Witness name.now self.now) }
        ensures leads { IfOk result (λ found. IsPath sort.Witness name.now self.now found) }
    {
        self.path_to(Sort::Witness, name)
    }

    fn path_to(&self, sort: Sort, name: &str) -> Result<Option<Path>, AllocError>
        ensures { IfOk result (λ found. found ≡ path_of sort name.now self.now) }
    {
        match self.route_to(sort, name)? {
            Some(route) => Ok(Some(route.into_path())),
            None => Ok(None),
        }
    }

    fn route_to(&self, sort: Sort, name: &str) -> Result<Option<Route>, AllocError>
        ensures { IfOk result (λ found. found ≡ path_of sort name.now self.now) }
    {
        let alloc = *self.bound.allocator();
        if let Some(route) = to_layer(alloc, self.bound.as_slice(), sort, name)? {
            return Ok(Some(route));
        }
        let Some(mut route) = to_bound(alloc, &self.root, sort, name)? else {
            return Ok(None);
        };
        drop_layers(&mut route, self.bound.len())?;
        Ok(Some(route))
    }
}
