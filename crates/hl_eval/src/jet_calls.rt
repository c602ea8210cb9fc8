//! Calls of jets: values as words, and words as values.

ghost use Rattle.std.specs.Prelude.{◌≡◌, Some, None, MatchOption, MatchResult, IfOk};
ghost use Rattle.hl_data.specs.declared.value.HlValue.TheViews.{out-HlValue};
ghost use Rattle.jet_table.specs.Rows.{kind_of, kinds_of};
ghost use Rattle.jets.specs.Jet.{width_of};
ghost use Rattle.hl_meaning.specs.Jets.{jet_answer, number_at, result_of};
ghost use Rattle.hl_eval.specs.Complete.{IsComplete};
ghost use Rattle.hl_eval.specs.Outcome.{AnswersMeaning};
ghost use Rattle.word_math.specs.Answer.{results_of};
ghost use Rattle.hl_eval.specs.Valued.{valued, valued_at, IsFailing};
ghost use Rattle.hl_eval.specs.Worded.{AreWords, IsUnlike};

use crate::fault::EvalFault;
use hl_data::{HlValue, HlValues};
use jet_table::{JETS, JetKind, JetTable};
use lists::Text;
use std::alloc::{AllocError, Global};
use word_math::{JetAnswer, Word, formula};

/// What the jet of a name gives.
pub(crate) fn call_jet(
    alloc: Global,
    jets: &JetTable<JETS>,
    name: &Text,
    arguments: HlValues,
) -> Result<HlValue, EvalFault>
    requires { IsComplete jets.now }
    ensures { AnswersMeaning (jet_answer name.now arguments) result }
{
    let Some(place) = jets.find(name.as_str()) else {
        return Err(EvalFault::NoAnswer);
    };
    let row = jets.row(place);
    let words = words_of(alloc, &row.arguments, arguments.as_slice())?;
    let answer = formula(row.op, row.narrow, row.wide, words.as_slice());
    let results = results_in(alloc, answer)?;
    let values = values_of(alloc, &row.results, results.as_slice())?;
    Ok(result_of(values))
}

/// The results of a jet, where it didn't fail.
fn results_in(alloc: Global, answer: JetAnswer) -> Result<Vec<Word>, EvalFault>
    ensures { MatchResult result
        (λ words. results_of answer ≡ Some words.items)
        (λ e. IsFailing (results_of answer) e) }
{
    let mut words = Vec::new(alloc);
    match answer {
        JetAnswer::Nothing => Ok(words),
        JetAnswer::One(first) => {
            words.push(first)?;
            Ok(words)
        }
        JetAnswer::Two(first, second) => {
            words.push(first)?;
            words.push(second)?;
            Ok(words)
        }
        JetAnswer::Failed => Err(EvalFault::Failed),
    }
}

/// A word of a jet's type as a value.
fn value_in(kind: JetKind, word: Word) -> HlValue
    ensures { result ≡ valued_at (kind_of kind) word }
{
    match kind {
        JetKind::Bool => HlValue::Bool(word.high() != 0 || word.low() != 0),
        JetKind::UInt(_) => HlValue::Number(word),
    }
}

/// Words as values, one for each type that is there.
fn values_of(
    alloc: Global,
    kinds: &[Option<JetKind>],
    words: &[Word],
) -> Result<HlValues, AllocError>
    ensures { IfOk result (λ values. values ≡ valued (kinds_of kinds.now) words.now) }
{
    let mut values = HlValues::new(alloc);
    'kinds: for kind in kinds {
        if let Some(kind) = kind {
            if values.len() == words.len() {
                return Ok(values);
            }
            values.push(value_in(*kind, words[values.len()]))?;
        }
    }
    Ok(values)
}

/// One value as itself; none and two as a tuple.
fn result_of(values: HlValues) -> HlValue
    ensures { result ≡ result_of values }
{
    let mut values = values.into_vec();
    if values.len() == 1 {
        if let Some(value) = values.pop() {
            return value;
        }
    }
    HlValue::Tuple(HlValues::from_vec(values))
}

/// A value as a word of a jet's type; a truth value is a bit.
fn word_of(kind: JetKind, value: &HlValue) -> Option<Word>
    ensures { MatchOption result
        (number_at (kind_of kind) (out-HlValue value.now) ≡ None)
        (λ w. (number_at (kind_of kind) (out-HlValue value.now) ≡ Some w.number)
        × (w.width ≡ width_of (kind_of kind))) }
{
    match kind {
        JetKind::Bool => match value {
            HlValue::Bool(b) => Word::new(1, 0, u128::from(*b)),
            _ => None,
        },
        JetKind::UInt(width) => match value {
            HlValue::Number(word) if word.width() == width => Some(*word),
            _ => None,
        },
    }
}

/// The arguments of a jet as words, one for each type that is there.
fn words_of(
    alloc: Global,
    kinds: &[Option<JetKind>],
    arguments: &[HlValue],
) -> Result<Vec<Word>, EvalFault>
    ensures { MatchResult result
        (λ words. AreWords (kinds_of kinds.now) arguments.now words.items)
        (λ e. IsUnlike (kinds_of kinds.now) arguments.now e) }
{
    let mut words = Vec::new(alloc);
    'kinds: for kind in kinds {
        if let Some(kind) = kind {
            if words.len() == arguments.len() {
                return Err(EvalFault::NoAnswer);
            }
            let Some(word) = word_of(*kind, &arguments[words.len()]) else {
                return Err(EvalFault::NoAnswer);
            };
            words.push(word)?;
        }
    }
    if words.len() != arguments.len() {
        return Err(EvalFault::NoAnswer);
    }
    Ok(words)
}
