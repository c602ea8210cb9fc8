//! Numbers that literals spell.

ghost use Rattle.std.specs.Prelude.{◌≡◌};
ghost use Rattle.jets.specs.Unsigned.{is_width};
ghost use Rattle.hl_syntax.specs.declared.kinds.HlType.TheViews.{out-HlType};
ghost use Rattle.hl_meaning.specs.Answer.{known};
ghost use Rattle.hl_meaning.specs.Literals.{literal_value};
ghost use Rattle.hl_meaning.specs.Mean.{number_at};
ghost use Rattle.hl_meaning.specs.Values.{word_at};
ghost use Rattle.hl_eval.specs.Outcome.{AnswersMeaning};

use crate::fault::EvalFault;
use hl_data::HlValue;
use hl_syntax::HlType;
use hl_values::word_spelled;
use lists::Text;

/// The number of a literal at a type of numbers.
pub(crate) fn literal(kind: &HlType, word: &Text) -> Result<HlValue, EvalFault>
    ensures { AnswersMeaning (number_at (out-HlType kind.now) word.now) result }
{
    match kind {
        HlType::UInt(width) => number_spelled(*width, word.as_str()),
        _ => Err(EvalFault::NoAnswer),
    }
}

/// Whether words have this width.
fn is_word_width(width: u16) -> bool
    ensures { result ≡ is_width width }
{
    matches!(width, 1 | 2 | 4 | 8 | 16 | 32 | 64 | 128 | 256)
}

/// The number that a literal spells, where it fits the width.
fn number_spelled(width: u16, word: &str) -> Result<HlValue, EvalFault>
    ensures { AnswersMeaning (known (word_at width (literal_value word.now))) result }
{
    if !is_word_width(width) {
        return Err(EvalFault::NoAnswer);
    }
    match word_spelled(word, width) {
        Some(spelled) => Ok(HlValue::Number(spelled)),
        None => Err(EvalFault::NoAnswer),
    }
}
