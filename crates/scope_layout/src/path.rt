//! Paths, step by step.

ghost use Rattle.std.specs.Prelude.{◌≡◌, [], ◌∷◌, ◌++◌, ◌<◌, ◌+◌, ◌/◌, suc, length, replicate, reverse, List, Option, Some, None, OnOk};
ghost use Rattle.scope_layout.specs.Paths.{among};
ghost use Rattle.scope_layout.specs.declared.path.Step.{Step};
ghost use Rattle.scope_layout.specs.declared.path.Step.TheVariants as step;

use lists::Sequence;
use std::alloc::{AllocError, Global};
use std::marker::Model;

/// A step from a pair to one of its parts.
#[derive(Clone, Copy, Debug, PartialEq, Eq)]
pub enum Step {
    /// To the first part.
    Take,
    /// To the second part.
    Drop,
}

/// The way from an input to one part of it: steps, the outermost first.
pub type Path = Sequence<Step>;

/// A path while it is made, which contracts see as the list of its steps.
#[derive(Drop)]
pub(crate) struct Route {
    /// The outermost step last, so that a step goes before the others without moving them.
    back: Vec<Step>,
}

impl Model for Route {
    ghost use Rattle.std.specs.Prelude.{List, reverse};
    ghost use Rattle.scope_layout.specs.declared.path.Step.{Step};

    ghost Value = { List Step };

    ghost view = { λ route. reverse route.back.items };
}

impl Route {
    /// No step, which takes no memory.
    pub(crate) fn here(alloc: Global) -> Route
        ensures { result ≡ [] }
    {
        Route {
            back: Vec::new(alloc),
        }
    }

    /// Puts a step before the others.
    pub(crate) fn precede(&mut self, step: Step) -> Result<(), AllocError>
        ensures { OnOk result (self.new ≡ step ∷ self.old) }
    {
        self.back.push(step)?;
        Ok(())
    }

    /// The path, in the same memory.
    pub(crate) fn into_path(self) -> Path
        ensures { result ≡ self }
    {
        let Route { mut back } = self;
        back.reverse();
        Path::from_vec(back)
    }
}

/// Puts so many drops before the steps of a route.
pub(crate) fn drop_layers(route: &mut Route, count: usize) -> Result<(), AllocError>
    ensures { OnOk result (route.new ≡ replicate count step.Drop ++ route.old) }
{
    'layers: for _ in 0..count {
        route.precede(Step::Drop)?;
    }
    Ok(())
}

/// How many of several parts are in the first half: it is rounded down.
fn first_half(count: usize) -> usize
    ensures { result ≡ count / 2 }
{
    count / 2
}

/// Puts before a route the steps to a part, by its place among so many parts.
pub(crate) fn descend(route: &mut Route, place: usize, count: usize) -> Result<(), AllocError>
    requires { place < count }
    ensures { OnOk result ((rest : List (Option (List Step))) → place + suc (length rest) ≡ count →
        among (replicate place None ++ Some route.old ∷ rest) ≡ Some route.new) }
{
    if count == 1 {
        return Ok(());
    }
    let half = first_half(count);
    if place < half {
        descend(route, place, half)?;
        route.precede(Step::Take)?;
        Ok(())
    } else {
        descend(route, place - half, count - half)?;
        route.precede(Step::Drop)?;
        Ok(())
    }
}
