//! Terms of the last term that was made, and of several as parts.

ghost use Rattle.std.specs.Prelude.{◌≡◌, ◌<◌, length, OnOk, IsTrue};
ghost use Rattle.simplicityhl.specs.Kinds.{is_bound};
ghost use Rattle.term_builder.specs.State.{state_of};
ghost use Rattle.term_builder.specs.Steps.{kind_of_core, IsSoundCore, MayMake, assert_last, unwrap_left_last, unwrap_right_last, test_none_last, to_left_last, to_right_last, tuple_last, list_last, call_last};

use crate::builder::Builder;
use crate::core_type::CoreType;
use std::alloc::AllocError;
use term_makers::{add_to_left, add_to_right};
use term_recipes::{
    add_asserted, add_called, add_list, add_none_tested, add_tuple, add_unwrapped_left,
    add_unwrapped_right,
};

impl Builder {
    /// The unit value where a truth value is true, and failure where it is false.
    pub fn assert(&mut self) -> Result<(), AllocError>
        requires makes { MayMake 1 (state_of self.old) (assert_last (state_of self.old)) }
        ensures { OnOk result (state_of self.new ≡ assert_last (state_of self.old)) }
    {
        let value = self.made.top();
        let id = add_asserted(
            &mut self.terms,
            &mut self.types,
            self.here,
            value,
            self.hidden,
        )?;
        self.made.replace(1, id);
        Ok(())
    }

    /// What a value of either of two types holds on the left, and failure where it is the other.
    pub fn unwrap_left(&mut self, left: CoreType, right: CoreType) -> Result<(), AllocError>
        requires left { IsSoundCore left }
        requires right { IsSoundCore right }
        requires makes { MayMake 1 (state_of self.old)
            (unwrap_left_last (kind_of_core left) (kind_of_core right) (state_of self.old)) }
        ensures { OnOk result (state_of self.new
            ≡ unwrap_left_last (kind_of_core left.entry) (kind_of_core right.entry) (state_of self.old)) }
    {
        let left = self.id_of(left)?;
        let right = self.id_of(right)?;
        let value = self.made.top();
        let id = add_unwrapped_left(
            &mut self.terms,
            &mut self.types,
            self.here,
            left,
            right,
            value,
            self.hidden,
        )?;
        self.made.replace(1, id);
        Ok(())
    }

    /// What a value of either of two types holds on the right, and failure where it is the other.
    pub fn unwrap_right(&mut self, left: CoreType, right: CoreType) -> Result<(), AllocError>
        requires left { IsSoundCore left }
        requires right { IsSoundCore right }
        requires makes { MayMake 1 (state_of self.old)
            (unwrap_right_last (kind_of_core left) (kind_of_core right) (state_of self.old)) }
        ensures { OnOk result (state_of self.new
            ≡ unwrap_right_last (kind_of_core left.entry) (kind_of_core right.entry) (state_of self.old)) }
    {
        let left = self.id_of(left)?;
        let right = self.id_of(right)?;
        let value = self.made.top();
        let id = add_unwrapped_right(
            &mut self.terms,
            &mut self.types,
            self.here,
            left,
            right,
            value,
            self.hidden,
        )?;
        self.made.replace(1, id);
        Ok(())
    }

    /// Whether an option of an item holds nothing.
    pub fn test_none(&mut self, item: CoreType) -> Result<(), AllocError>
        requires item { IsSoundCore item }
        requires makes { MayMake 1 (state_of self.old)
            (test_none_last (kind_of_core item) (state_of self.old)) }
        ensures { OnOk result (state_of self.new
            ≡ test_none_last (kind_of_core item.entry) (state_of self.old)) }
    {
        let item = self.id_of(item)?;
        let value = self.made.top();
        let id = add_none_tested(&mut self.terms, &mut self.types, self.here, item, value)?;
        self.made.replace(1, id);
        Ok(())
    }

    /// A value as the left of a sum whose right is of a type.
    pub fn to_left(&mut self, other: CoreType) -> Result<(), AllocError>
        requires other { IsSoundCore other }
        requires makes { MayMake 1 (state_of self.old) (to_left_last (kind_of_core other) (state_of self.old)) }
        ensures { OnOk result (state_of self.new
            ≡ to_left_last (kind_of_core other.entry) (state_of self.old)) }
    {
        let other = self.id_of(other)?;
        let value = self.made.top();
        let id = add_to_left(&mut self.terms, &mut self.types, other, value)?;
        self.made.replace(1, id);
        Ok(())
    }

    /// A value as the right of a sum whose left is of a type.
    pub fn to_right(&mut self, other: CoreType) -> Result<(), AllocError>
        requires other { IsSoundCore other }
        requires makes { MayMake 1 (state_of self.old) (to_right_last (kind_of_core other) (state_of self.old)) }
        ensures { OnOk result (state_of self.new
            ≡ to_right_last (kind_of_core other.entry) (state_of self.old)) }
    {
        let other = self.id_of(other)?;
        let value = self.made.top();
        let id = add_to_right(&mut self.terms, &mut self.types, other, value)?;
        self.made.replace(1, id);
        Ok(())
    }

    /// The tuple of the last terms, or the array of them.
    pub fn tuple(&mut self, count: usize) -> Result<(), AllocError>
        requires makes { MayMake count (state_of self.old) (tuple_last count (state_of self.old)) }
        ensures { OnOk result (state_of self.new ≡ tuple_last count (state_of self.old)) }
    {
        let parts = self.made.last(count);
        let id = add_tuple(&mut self.terms, &mut self.types, self.here, parts)?;
        self.made.put(count, id)
    }

    /// The list of the last terms with a bound.
    pub fn list(&mut self, count: usize, item: CoreType, bound: u32) -> Result<(), AllocError>
        requires item { IsSoundCore item }
        requires bound { IsTrue (is_bound bound) }
        requires makes { MayMake count (state_of self.old)
            (list_last (kind_of_core item) bound count (state_of self.old)) }
        ensures { OnOk result (state_of self.new
            ≡ list_last (kind_of_core item.entry) bound count (state_of self.old)) }
    {
        let item = self.id_of(item)?;
        let items = self.made.last(count);
        let id = add_list(
            &mut self.terms,
            &mut self.types,
            self.here,
            item,
            bound,
            items,
        )?;
        self.made.put(count, id)
    }

    /// A call of a kept term, by its place, with the last terms as its arguments.
    pub fn call(&mut self, place: usize, count: usize) -> Result<(), AllocError>
        requires place { place < length (state_of self.old).kept }
        requires makes { MayMake count (state_of self.old) (call_last place count (state_of self.old)) }
        ensures { OnOk result (state_of self.new ≡ call_last place count (state_of self.old)) }
    {
        let parts = self.made.last(count);
        let arguments = add_tuple(&mut self.terms, &mut self.types, self.here, parts)?;
        let id = add_called(&mut self.terms, &self.types, arguments, self.kept[place])?;
        self.made.put(count, id)
    }
}
