//! What a part of a program is evaluated with, and calls of functions and loops.

ghost use Rattle.std.specs.Prelude.{ℕ, ◌≡◌, ◌<◌, None, length, find, position, bytes_eq, option_map, MatchResult, IfSome, IfOk, IsTrue};
ghost use Rattle.hl_meaning.specs.Answer.{known};
ghost use Rattle.hl_meaning.specs.Scopes.{meant};
ghost use Rattle.hl_eval.specs.Complete.{IsComplete};

use crate::copy::copy_value;
use crate::fault::EvalFault;
use crate::values::counter_width;
use hl_data::{Entry, HlValue, TypedFunction};
use jet_table::{JETS, JetTable};
use lists::Text;
use std::alloc::Global;

/// What a part of a program is evaluated with: all jets, the functions before it, and the values of the witnesses.
#[derive(Clone, Copy)]
pub(crate) struct Evaluator<'a> {
    pub(crate) alloc: Global,
    pub(crate) jets: &'a JetTable<JETS>,
    pub(crate) functions: &'a [TypedFunction],
    pub(crate) witness: &'a [Entry],
    ghost complete: { IsComplete jets.now },
}

impl Evaluator<'_> {
    ghost use Rattle.hl_meaning.specs.Loops.{is_counter_width};
    ghost use Rattle.hl_meaning.specs.Mean.{function_of, counter_width};
    ghost use Rattle.hl_eval.specs.Here.{witness_in, functions_in, ForFunction, IsPlaceOf};
    ghost use Rattle.hl_eval.specs.Outcome.{AnswersMeaning};
    ghost use Rattle.hl_eval.specs.declared.fault.EvalFault.TheVariants.{NoAnswer};

    /// The place of the function that a name means.
    pub(crate) fn place_named(&self, name: &str) -> Result<usize, EvalFault>
        ensures { MatchResult result
            (λ place. IsPlaceOf self.now name.now place)
            (λ e. (e ≡ NoAnswer)
            × (function_of (functions_in self.now) (witness_in self.now) name.now ≡ None)) }
    {
        match position_of(self.functions, name) {
            Some(place) => Ok(place),
            None => Err(EvalFault::NoAnswer),
        }
    }

    /// The place of the function that a name of a source text means.
    pub(crate) fn place_of(&self, name: &Text) -> Result<usize, EvalFault>
        ensures { MatchResult result
            (λ place. IsPlaceOf self.now name.now place)
            (λ e. (e ≡ NoAnswer)
            × (function_of (functions_in self.now) (witness_in self.now) name.now ≡ None)) }
    {
        self.place_named(name.as_str())
    }

    /// The width of the counter of the function at a place.
    pub(crate) fn counter_width_of(&self, place: usize) -> Result<u16, EvalFault>
        requires { place < length self.now.functions.now }
        ensures width { ForFunction self.now place (λ f. AnswersMeaning (known (counter_width f.params)) result) }
        ensures counter { IfOk result (λ width. IsTrue (is_counter_width width)) }
    {
        counter_width(&self.functions[place].params)
    }

    /// A copy of the value of the witness of a name.
    pub(crate) fn witness_of(&self, name: &Text) -> Result<HlValue, EvalFault>
        ensures { AnswersMeaning (known (meant name.now (witness_in self.now))) result }
    {
        match entry_of(self.witness, name.as_str()) {
            Some(entry) => Ok(copy_value(self.alloc, &entry.value)?),
            None => Err(EvalFault::NoAnswer),
        }
    }
}

/// The place of the first function with a name.
fn position_of(functions: &[TypedFunction], name: &str) -> Option<usize>
    ensures place { result ≡ position (λ f. bytes_eq name.now f.name) functions.now }
    ensures within { IfSome result (λ place. place < length functions.now) }
{
    functions.iter().position(|f| name == f.name.as_str())
}

/// The first entry with a name.
fn entry_of<'a>(entries: &'a [Entry], name: &str) -> Option<&'a Entry>
    ensures { option_map (λ e. e.now) result ≡ find (λ e. bytes_eq name.now e.name) entries.now }
{
    entries.iter().find(|entry| name == entry.name.as_str())
}
