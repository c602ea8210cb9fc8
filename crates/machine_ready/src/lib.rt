//! Laws that a machine which takes its memory first rests on: each function below has no body, and its contract is a law.
#![tactic(auto)]

ghost use Rattle.machine_ready.specs.Ready.{InstructionsAreReady, ReadsFindBits, NodesGiveWay, RowsAreLighter};

/// Where the room is that of the bounds, each instruction of a run is ready, and its cost fits 64 bits.
pub fn instructions_are_ready_law()
    ensures { InstructionsAreReady }
{}

/// A read of a run finds a bit.
pub fn reads_find_bits_law()
    ensures { ReadsFindBits }
{}

/// A node in front gives way to its row.
pub fn nodes_give_way_law()
    ensures { NodesGiveWay }
{}

/// The nodes of a row weigh less than the node, so that replacing nodes comes to an end.
pub fn rows_are_lighter_law()
    ensures { RowsAreLighter }
{}
