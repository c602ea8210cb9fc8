//! Counts of items and bounds of lists.

ghost use Rattle.std.specs.Prelude.{◌≡◌, ◌<◌, min, IfOk, IsTrue};
ghost use Rattle.hl_types.specs.Answers.{AnswersType};
ghost use Rattle.simplicityhl.specs.Kinds.{is_bound, is_count};
ghost use Rattle.simplicityhl.specs.Tokens.{decimal_value};
ghost use Rattle.simplicityhl.specs.Written.{bounded, counted};

use crate::refusal::TypeRefusal;
use hl_syntax::{Limit, Mark, Rule};

/// The number that a word's digits spell, or 65,537 where it is more.
fn count_of(word: &[u8]) -> u32
    ensures { result ≡ min (decimal_value word.now) 65_537 }
{
    let mut value = 0u32;
    for byte in word {
        if byte.is_ascii_digit() {
            value = (value * 10 + u32::from(*byte - b'0')).min(65_537);
        }
    }
    value
}

/// A number within the greatest count, 65,536.
///
/// # Errors
///
/// `Limit` L4 for a greater number.
pub fn counted(mark: &Mark) -> Result<u32, TypeRefusal>
    ensures answers { AnswersType (counted mark.now) result }
    ensures sound { IfOk result (λ count. IsTrue (is_count count)) }
{
    let count = count_of(mark.text.as_str().as_bytes());
    if count > 65_536 {
        return Err(TypeRefusal::Limit {
            limit: Limit::L4,
            span: mark.span,
        });
    }
    Ok(count)
}

/// Whether lists have the bound: a power of two from 2 up to 65,536.
pub fn is_list_bound(bound: u32) -> bool
    ensures { result ≡ is_bound bound }
{
    matches!(
        bound,
        2 | 4
            | 8
            | 16
            | 32
            | 64
            | 128
            | 256
            | 512
            | 1024
            | 2048
            | 4096
            | 8192
            | 16_384
            | 32_768
            | 65_536
    )
}

/// A count that is a bound of lists.
pub(crate) fn bounded(mark: &Mark, count: u32) -> Result<u32, TypeRefusal>
    ensures answers { AnswersType (bounded mark.now count) result }
    ensures sound { IfOk result (λ bound. IsTrue (is_bound bound)) }
{
    if is_list_bound(count) {
        return Ok(count);
    }
    Err(TypeRefusal::Rule {
        rule: Rule::K10,
        span: mark.span,
    })
}
