//! Refusals as statuses with their lines.

ghost use Rattle.command_outcome.specs.Stops.{Stops};
ghost use Rattle.checked_source.specs.Parts.{IsUnchecked};
ghost use Rattle.checked_source.specs.Steps.{IsBadArgs, IsBadWitnesses};

use command_outcome::{DataCause, SourceCause, Stop, passed_limit, refused_data, refused_span};
use hl_check::CheckRefusal;
use hl_files::{TextRefusal, WantedRefusal};
use std::alloc::Global;

/// The parameters' entries are refused.
pub(crate) fn refused_args(alloc: Global, refusal: TextRefusal) -> Stop
    ensures { Stops (IsBadArgs refusal) result }
{
    match refusal {
        TextRefusal::NotJson => refused_data(alloc, DataCause::NotJson, "args"),
        TextRefusal::BadEntry { name } => refused_data(alloc, DataCause::BadEntry, name.as_str()),
        TextRefusal::BadValue { name } => refused_data(alloc, DataCause::BadValue, name.as_str()),
        TextRefusal::OutOfMemory => Stop::OutOfMemory,
    }
}

/// A rule or a limit is broken.
pub(crate) fn refused_program(alloc: Global, refusal: CheckRefusal) -> Stop
    ensures { Stops (IsUnchecked refusal) result }
{
    match refusal {
        CheckRefusal::Rule { rule, span } => refused_span(alloc, SourceCause::Broken(rule), span),
        CheckRefusal::Limit { limit, .. } => passed_limit(alloc, limit),
        CheckRefusal::OutOfMemory => Stop::OutOfMemory,
    }
}

/// The witnesses' entries are refused.
pub(crate) fn refused_witnesses(alloc: Global, refusal: WantedRefusal) -> Stop
    ensures { Stops (IsBadWitnesses refusal) result }
{
    match refusal {
        WantedRefusal::NotJson => refused_data(alloc, DataCause::NotJson, "wit"),
        WantedRefusal::Missing { name } => refused_data(alloc, DataCause::Missing, name.as_str()),
        WantedRefusal::BadEntry { name } => refused_data(alloc, DataCause::BadEntry, name.as_str()),
        WantedRefusal::TypeDiffers { name } => {
            refused_data(alloc, DataCause::TypeDiffers, name.as_str())
        }
        WantedRefusal::BadValue { name } => refused_data(alloc, DataCause::BadValue, name.as_str()),
        WantedRefusal::OutOfMemory => Stop::OutOfMemory,
    }
}
