//! The law of evaluations.

ghost use Rattle.eval_command.specs.Law.{EvaluationIsOne};

use hl_files::{one_reading_law, one_wanted_reading_law};
use hl_grammar::{one_program_law, one_value_law, program_fronts_law};

/// An evaluation has one status, one text for standard output and one for standard error.
pub fn one_evaluation_law()
    ensures { EvaluationIsOne }
{
    one_program_law();
    program_fronts_law();
    one_value_law();
    one_reading_law();
    one_wanted_reading_law();
}
