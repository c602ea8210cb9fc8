//! Terms of two or three that were made one after the other.

ghost use Rattle.std.specs.Prelude.{◌≡◌, OnOk};
ghost use Rattle.term_builder.specs.State.{state_of};
ghost use Rattle.term_builder.specs.Steps.{kind_of_core, IsSoundCore, MayMake, bind_last, follow_last, match_last};

use crate::builder::Builder;
use crate::core_type::CoreType;
use std::alloc::AllocError;
use term_recipes::{add_bound, add_followed, add_matched};

impl Builder {
    /// A value that is bound before the scope, in what comes after it.
    pub fn bind(&mut self) -> Result<(), AllocError>
        requires makes { MayMake 2 (state_of self.old) (bind_last (state_of self.old)) }
        ensures { OnOk result (state_of self.new ≡ bind_last (state_of self.old)) }
    {
        let rest = self.made.top();
        let value = self.made.below(1);
        let id = add_bound(&mut self.terms, &mut self.types, self.here, value, rest)?;
        self.made.replace(2, id);
        Ok(())
    }

    /// A value that is dropped, and what comes after it.
    pub fn follow(&mut self) -> Result<(), AllocError>
        requires makes { MayMake 2 (state_of self.old) (follow_last (state_of self.old)) }
        ensures { OnOk result (state_of self.new ≡ follow_last (state_of self.old)) }
    {
        let rest = self.made.top();
        let value = self.made.below(1);
        let id = add_followed(&mut self.terms, &mut self.types, value, rest)?;
        self.made.replace(2, id);
        Ok(())
    }

    /// A match of a value of either of two types, with what comes of each bound before the scope.
    pub fn choose(&mut self, left: CoreType, right: CoreType) -> Result<(), AllocError>
        requires left { IsSoundCore left }
        requires right { IsSoundCore right }
        requires makes { MayMake 3 (state_of self.old)
            (match_last (kind_of_core left) (kind_of_core right) (state_of self.old)) }
        ensures { OnOk result (state_of self.new
            ≡ match_last (kind_of_core left.entry) (kind_of_core right.entry) (state_of self.old)) }
    {
        let left = self.id_of(left)?;
        let right = self.id_of(right)?;
        let second = self.made.top();
        let first = self.made.below(1);
        let value = self.made.below(2);
        let id = add_matched(
            &mut self.terms,
            &mut self.types,
            self.here,
            value,
            left,
            right,
            first,
            second,
        )?;
        self.made.replace(3, id);
        Ok(())
    }
}
