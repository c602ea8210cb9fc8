//! What a turn of a loop comes to.

ghost use Rattle.hl_data.specs.declared.value.HlValue.TheViews.{out-HlValue};
ghost use Rattle.hl_eval.specs.Outcome.{AnswersMeaning};
ghost use Rattle.hl_eval.specs.Turned.{turned};

use crate::fault::EvalFault;
use hl_data::HlValue;
use lists::Boxed;

/// What a turn of a loop comes to.
#[derive(Drop)]
pub(crate) enum Turn {
    /// The loop ends with `Left` of this.
    Last(Boxed<HlValue>),
    /// The loop goes on with this.
    Next(Boxed<HlValue>),
}

/// What a turn comes to whose function gave a value.
pub(crate) fn turned(value: HlValue) -> Result<Turn, EvalFault>
    ensures { AnswersMeaning (turned (out-HlValue value)) result }
{
    match value {
        HlValue::Left(last) => Ok(Turn::Last(last)),
        HlValue::Right(next) => Ok(Turn::Next(next)),
        _ => Err(EvalFault::NoAnswer),
    }
}
