//! Terms without parts, on the input of the scope.

ghost use Rattle.std.specs.Prelude.{◌≡◌, map, OnOk};
ghost use Rattle.hl_meaning.specs.Entries.{IsValueOf};
ghost use Rattle.hl_terms.specs.Paths.{path_term};
ghost use Rattle.simplicityhl.specs.Kinds.{IsSound};
ghost use Rattle.hl_terms.specs.Translated.{false_term, true_term, value_term, word_term};
ghost use Rattle.layout_laws.specs.Scopes.{step_of};
ghost use Rattle.simplicity.specs.Makes as make;
ghost use Rattle.term_builder.specs.State.{state_of};
ghost use Rattle.term_builder.specs.Steps.{kind_of_core, IsSoundCore, with_term};

use crate::builder::Builder;
use crate::core_type::CoreType;
use hl_data::HlValue;
use hl_syntax::HlType;
use scope_layout::Path;
use std::alloc::AllocError;
use term_makers::{add_fail, add_unit, add_witness};
use term_recipes::{add_false, add_nothing, add_path, add_true, add_word_value};
use value_recipes::add_value;
use word_math::Word;

impl Builder {
    /// The unit value.
    pub fn unit(&mut self) -> Result<(), AllocError>
        ensures { OnOk result (state_of self.new
            ≡ with_term (make.unit (state_of self.old).here) (state_of self.old)) }
    {
        let id = add_unit(&mut self.terms, &mut self.types, self.here)?;
        self.made.push(id)
    }

    /// `true`.
    pub fn truth(&mut self) -> Result<(), AllocError>
        ensures { OnOk result (state_of self.new
            ≡ with_term (true_term (state_of self.old).here) (state_of self.old)) }
    {
        let id = add_true(&mut self.terms, &mut self.types, self.here)?;
        self.made.push(id)
    }

    /// `false`.
    pub fn falsehood(&mut self) -> Result<(), AllocError>
        ensures { OnOk result (state_of self.new
            ≡ with_term (false_term (state_of self.old).here) (state_of self.old)) }
    {
        let id = add_false(&mut self.terms, &mut self.types, self.here)?;
        self.made.push(id)
    }

    /// `None`, at the type of an option of an item.
    pub fn nothing(&mut self, item: CoreType) -> Result<(), AllocError>
        requires { IsSoundCore item }
        ensures { OnOk result (state_of self.new
            ≡ with_term (make.to_left (kind_of_core item.entry) (make.unit (state_of self.old).here))
            (state_of self.old)) }
    {
        let item = self.id_of(item)?;
        let id = add_nothing(&mut self.terms, &mut self.types, self.here, item)?;
        self.made.push(id)
    }

    /// A word.
    pub fn word(&mut self, word: Word) -> Result<(), AllocError>
        ensures { OnOk result (state_of self.new
            ≡ with_term (word_term (state_of self.old).here word.width word.number) (state_of self.old)) }
    {
        let id = add_word_value(&mut self.terms, &mut self.types, self.here, word)?;
        self.made.push(id)
    }

    /// Failure, at a type.
    pub fn failure(&mut self, kind: CoreType) -> Result<(), AllocError>
        requires { IsSoundCore kind }
        ensures { OnOk result (state_of self.new
            ≡ with_term (make.fail (state_of self.old).here (kind_of_core kind.entry)) (state_of self.old)) }
    {
        let kind = self.id_of(kind)?;
        let id = add_fail(&mut self.terms, &self.types, self.here, kind)?;
        self.made.push(id)
    }

    /// The witness of a number, at a type.
    pub fn witness(&mut self, number: usize, kind: CoreType) -> Result<(), AllocError>
        requires { IsSoundCore kind }
        ensures { OnOk result (state_of self.new
            ≡ with_term (make.witness (state_of self.old).here (kind_of_core kind.entry) number)
            (state_of self.old)) }
    {
        let kind = self.id_of(kind)?;
        let id = add_witness(&mut self.terms, &self.types, number, self.here, kind)?;
        self.made.push(id)
    }

    /// What a path leads to in the input.
    pub fn path(&mut self, path: &Path) -> Result<(), AllocError>
        ensures { OnOk result (state_of self.new
            ≡ with_term (path_term (state_of self.old).here (map step_of path.now)) (state_of self.old)) }
    {
        let id = add_path(&mut self.terms, &mut self.types, self.here, path)?;
        self.made.push(id)
    }

    /// A value at its type.
    pub fn value(&mut self, value: &HlValue, kind: &HlType) -> Result<(), AllocError>
        requires sound { IsSound kind.now }
        requires of_kind { IsValueOf value.now kind.now }
        ensures { OnOk result (state_of self.new
            ≡ with_term (value_term value.now kind.now (state_of self.old).here) (state_of self.old)) }
    {
        let id = add_value(
            self.alloc,
            &mut self.terms,
            &mut self.types,
            self.here,
            value,
            kind,
        )?;
        self.made.push(id)
    }
}
