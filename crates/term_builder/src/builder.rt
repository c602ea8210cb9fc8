//! The builder, its scopes and the terms that it keeps.

ghost use Rattle.std.specs.Prelude.{◌≡◌, ◌<◌, [], length, map, OnOk, IfOk};
ghost use Rattle.std.specs.List.{All};
ghost use Rattle.term_core.specs.Terms.{term_at, StandsOver};
ghost use Rattle.type_table.specs.Kinds.{Means, IsGrown};
ghost use Rattle.term_builder.specs.State.{state_of};
ghost use Rattle.term_builder.specs.Steps.{kind_of_core, IsSoundCore, begun, entered, to_outer, keep_last};

use crate::core_type::{CoreType, core_id};
use crate::stack::Stack;
use root_hash::fail_root;
use std::alloc::{AllocError, Global};
use std::marker::Model;
use term_core::{NodeId, TermTable};
use type_table::{TypeId, TypeTable};

/// Terms while they are made, in the scopes that were entered.
#[derive(Drop)]
pub struct Builder {
    pub(crate) alloc: Global,
    pub(crate) types: TypeTable,
    pub(crate) terms: TermTable,
    /// The type of the scope's input.
    pub(crate) here: TypeId,
    pub(crate) outer: Stack,
    pub(crate) made: Stack,
    pub(crate) kept: Vec<NodeId>,
    /// The root of failure, which stands for what an assertion hides.
    pub(crate) hidden: [u8; 32],
}

impl Model for Builder {
    ghost use Rattle.std.specs.Prelude.{◌≡◌};
    ghost use Rattle.simplicity.specs.Makes.{fail_root};
    ghost use Rattle.term_builder.specs.State.{Held, coded_held, IsHeld};

    ghost Value = { Held };

    ghost coded = { coded_held };

    ghost view = { λ b. record { kinds = b.types; rows = b.terms; here = b.here; outer = b.outer; made = b.made; kept = b.kept.items } };

    ghost invariant = { λ b.
        IsHeld (record { kinds = b.types; rows = b.terms; here = b.here; outer = b.outer; made = b.made; kept = b.kept.items })
        × (b.hidden ≡ fail_root) };
}

impl Builder {
    /// A builder that has made nothing, over a table of types, in the scope of the unit type.
    ///
    /// # Errors
    ///
    /// For want of memory.
    pub fn new(alloc: Global, mut types: TypeTable) -> Result<Builder, AllocError>
        ensures { IfOk result (λ b. ((state_of b).made ≡ []) × ((state_of b).kept ≡ [])) }
    {
        let here = types.unit()?;
        Ok(Builder {
            alloc,
            types,
            terms: TermTable::new(alloc),
            here,
            outer: Stack::new(alloc),
            made: Stack::new(alloc),
            kept: Vec::new(alloc),
            hidden: fail_root(),
        })
    }

    /// The id of a core type, in the builder's table.
    pub(crate) fn id_of(&mut self, core: CoreType) -> Result<TypeId, AllocError>
        requires { IsSoundCore core }
        ensures ok { IfOk result (λ id. Means self.new.kinds id (kind_of_core core.entry)) }
        ensures grown { IsGrown self.old.kinds self.new.kinds }
        ensures same { state_of self.new ≡ state_of self.old }
    {
        core_id(self.alloc, core, &mut self.types)
    }

    /// Begins the scope of a function, in no other.
    pub fn begin(&mut self, kind: CoreType) -> Result<(), AllocError>
        requires { IsSoundCore kind }
        ensures { OnOk result (state_of self.new ≡ begun (kind_of_core kind.entry) (state_of self.old)) }
    {
        self.here = self.id_of(kind)?;
        self.outer.clear();
        Ok(())
    }

    /// Enters a scope with a part of a type bound before this one.
    pub fn enter(&mut self, kind: CoreType) -> Result<(), AllocError>
        requires { IsSoundCore kind }
        ensures { OnOk result (state_of self.new ≡ entered (kind_of_core kind.entry) (state_of self.old)) }
    {
        let part = self.id_of(kind)?;
        let both = self.types.product(part, self.here)?;
        self.outer.push(self.here)?;
        self.here = both;
        Ok(())
    }

    /// Goes back to the scope around this one.
    pub fn leave(&mut self)
        ensures { state_of self.new ≡ to_outer (state_of self.old).outer (state_of self.old) }
    {
        if let Some(outer) = self.outer.pop() {
            self.here = outer;
        }
    }

    /// Keeps the last term, after those that are kept.
    ///
    /// # Errors
    ///
    /// For want of memory; so of each call below, after which what was made is lost.
    pub fn keep(&mut self) -> Result<(), AllocError>
        requires { 0 < length (state_of self.old).made }
        ensures { OnOk result (state_of self.new ≡ keep_last (state_of self.old)) }
    {
        let term = self.made.top();
        self.kept.push(term)?;
        self.made.pop();
        Ok(())
    }

    /// The tables and the ids of the terms that are kept, in order.
    pub fn into_parts(self) -> (TypeTable, TermTable, Vec<NodeId>)
        ensures stands { StandsOver result.0 result.1 }
        ensures kept { map (term_at result.0 result.1) result.2.items ≡ (state_of self).kept }
        ensures there { All (λ id. id < length result.1) result.2.items }
    {
        let Builder {
            types,
            terms,
            kept,
            ..
        } = self;
        (types, terms, kept)
    }
}
