//! Laws of the Bit Machine: each function below has no body, and its contract is a law.
#![tactic(auto)]

ghost use Rattle.machine_laws.specs.Written.{CellsAreValues};
ghost use Rattle.machine_laws.specs.Laws.{RunsMean, RunsAreBounded, ItemsAreLayered, LayersMove, RowsGoBack, StepsAreTurns, StepIsOne, StepAnswers};

/// The run of a typed program ends with the cells of its meaning's value, fails exactly where the
/// meaning fails, and is never stuck.
pub fn runs_mean_law()
    ensures { RunsMean }
{}

/// In each state of a run its work, its peaks and what it holds are within the bounds of the list.
pub fn runs_are_bounded_law()
    ensures { RunsAreBounded }
{}

/// In each state of a run the items left to do are what is left of at most as many nodes as the
/// bounds of the list have depth.
pub fn items_are_layered_law()
    ensures { ItemsAreLayered }
{}

/// Layers start with the root's row and stay nested, so that they are few, as nodes are entered and
/// left.
pub fn layers_move_law()
    ensures { LayersMove }
{}

/// The nodes in a node's row stand before it.
pub fn rows_go_back_law()
    ensures { RowsGoBack }
{}

/// Runs by turns and by steps of one instruction end and fail in the same states.
pub fn steps_are_turns_law()
    ensures { StepsAreTurns }
{}

/// A step is one instruction: it counts one, one that fails nothing, and there is one at most.
pub fn step_is_one_law()
    ensures { StepIsOne }
{}

/// From each state of a run there is a step, or the end, or failure.
pub fn step_answers_law()
    ensures { StepAnswers }
{}

/// The instructions that write a value are those of its cells, and the value is read back from
/// them.
pub fn cells_are_values_law()
    ensures { CellsAreValues }
{}
