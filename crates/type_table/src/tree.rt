//! A core type as a tree.

ghost use Rattle.std.specs.Prelude.{◌≡◌, [], ◌∷◌, ◌++◌, ◌+◌, ◌*◌, ◌<◌, ◌≤◌, length, Some, IfOk, IsSome};
ghost use Rattle.core_data.specs.Data.{kind_of};
ghost use Rattle.simplicity.specs.Limits.{most_weight};
ghost use Rattle.simplicity.specs.Types.{weight};
ghost use Rattle.type_table.specs.Kinds.{kind_at};
ghost use Rattle.type_table.specs.Steps.{stack_of, after_step, after_steps, load, step_load};
ghost use Rattle.type_table.specs.declared.tree.Step.TheVariants.{Make};

use crate::shape::{Shape, TypeId};
use crate::table::TypeTable;
use core_data::CoreType;
use std::alloc::{AllocError, Global};

/// What is left to do on the way to a tree.
#[derive(Clone, Copy)]
pub(crate) enum Step {
    /// Makes the tree of a type.
    Make(TypeId),
    /// Joins the last two trees to a sum.
    JoinSum,
    /// Joins the last two trees to a product.
    JoinProduct,
}

impl TypeTable {
    /// The tree of a type. The walk keeps a list of what is left to do, so a deep tree takes no stack.
    pub fn tree(&self, alloc: Global, id: TypeId) -> Result<CoreType, AllocError>
        requires there { id < length self.now }
        requires light { weight (kind_at self.now id) ≤ most_weight }
        ensures { IfOk result (λ tree. kind_of tree ≡ kind_at self.now id) }
    {
        let mut steps = Vec::new(alloc);
        steps.push(Step::Make(id))?;
        let mut trees = Vec::new(alloc);
        while let Some(step) = steps.pop() {
            self.take_step(alloc, step, &mut steps, &mut trees)?;
        }
        match trees.pop() {
            Some(tree) => Ok(tree),
            None => unreachable!(),
        }
    }

    /// Takes a step, which may leave more steps.
    fn take_step(
        &self,
        alloc: Global,
        step: Step,
        steps: &mut Vec<Step>,
        trees: &mut Vec<CoreType>,
    ) -> Result<(), AllocError>
        requires { IsSome (after_step self.now step (Some (stack_of trees.old.items))) }
        ensures after { IfOk result (λ _.
            after_steps self.now steps.new.items (Some (stack_of trees.new.items))
            ≡ after_steps self.now steps.old.items
            (after_step self.now step (Some (stack_of trees.old.items)))) }
        ensures less { IfOk result (λ _.
            load self.now steps.new.items < step_load self.now step + load self.now steps.old.items) }
    {
        match step {
            Step::Make(id) => self.make(id, steps, trees)?,
            Step::JoinSum => {
                let (left, right) = last_two(trees);
                let left = Box::new(alloc, left)?;
                let right = Box::new(alloc, right)?;
                trees.push(CoreType::Sum(left, right))?;
            }
            Step::JoinProduct => {
                let (left, right) = last_two(trees);
                let left = Box::new(alloc, left)?;
                let right = Box::new(alloc, right)?;
                trees.push(CoreType::Product(left, right))?;
            }
        }
        Ok(())
    }

    /// Makes the tree of a type, or leaves the steps that make it.
    fn make(
        &self,
        id: TypeId,
        steps: &mut Vec<Step>,
        trees: &mut Vec<CoreType>,
    ) -> Result<(), AllocError>
        requires { id < length self.now }
        ensures after { IfOk result (λ _.
            after_steps self.now steps.new.items (Some (stack_of trees.new.items))
            ≡ after_steps self.now steps.old.items
            (Some (kind_at self.now id ∷ stack_of trees.old.items))) }
        ensures less { IfOk result (λ _.
            load self.now steps.new.items
            < 2 * weight (kind_at self.now id) + load self.now steps.old.items) }
    {
        match self.shape(id) {
            Shape::One => trees.push(CoreType::One)?,
            Shape::Sum(left, right) => plan(steps, left, right, Step::JoinSum)?,
            Shape::Product(left, right) => plan(steps, left, right, Step::JoinProduct)?,
        }
        Ok(())
    }
}

/// Leaves the steps that make two trees and join them.
fn plan(steps: &mut Vec<Step>, left: TypeId, right: TypeId, join: Step) -> Result<(), AllocError>
    ensures { IfOk result (λ _.
        steps.new.items ≡ steps.old.items ++ join ∷ Make right ∷ Make left ∷ []) }
{
    steps.push(join)?;
    steps.push(Step::Make(right))?;
    steps.push(Step::Make(left))?;
    Ok(())
}

/// Takes the last two trees, in their order.
fn last_two(trees: &mut Vec<CoreType>) -> (CoreType, CoreType)
    requires { 2 ≤ length trees.old.items }
    ensures { stack_of trees.old.items ≡ kind_of result.1 ∷ kind_of result.0 ∷ stack_of trees.new.items }
{
    match trees.pop() {
        Some(right) => match trees.pop() {
            Some(left) => (left, right),
            None => unreachable!(),
        },
        None => unreachable!(),
    }
}
