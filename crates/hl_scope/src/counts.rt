//! Counts of items, within the greatest.

ghost use Rattle.std.specs.Prelude.{IfOk, IsTrue};
ghost use Rattle.simplicityhl.specs.Kinds.{is_count};
ghost use Rattle.simplicityhl.specs.Written.{counted};
ghost use Rattle.hl_scope.specs.Checks.{Checks};

use crate::refusal::CheckRefusal;
use hl_syntax::Mark;
use hl_types::{TypeRefusal, counted as type_count};

/// A number within the greatest count, 65,536.
///
/// # Errors
///
/// L4 for a greater number.
pub fn counted(mark: &Mark) -> Result<u32, CheckRefusal>
    ensures answers { Checks (counted mark.now) result }
    ensures sound { IfOk result (λ count. IsTrue (is_count count)) }
{
    match type_count(mark) {
        Ok(count) => Ok(count),
        Err(TypeRefusal::Rule { rule, span }) => Err(CheckRefusal::Rule { rule, span }),
        Err(TypeRefusal::Limit { limit, span }) => Err(CheckRefusal::Limit { limit, span }),
        Err(TypeRefusal::OutOfMemory) => Err(CheckRefusal::OutOfMemory),
    }
}
