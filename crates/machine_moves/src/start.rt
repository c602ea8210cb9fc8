//! The start of a run.

ghost use Rattle.std.specs.Prelude.{◌≡◌, ◌+◌, ◌≤◌, [], ◌∷◌, length, IfOk};
ghost use Rattle.simplicity.specs.Cells.{undefined};
ghost use Rattle.simplicity.specs.Machine.{frame, forth};
ghost use Rattle.frame_stack.specs.Bits.{cell_of, cells_of};
ghost use Rattle.frame_stack.specs.Stacks.{HasAfter, on_top};
ghost use Rattle.machine_moves.specs.Moves.{put_cell};
ghost use Rattle.machine_moves.specs.Traced.{begun};

use crate::trace::{Totals, Trace};
use frame_stack::{Cell, Frames};
use std::alloc::{AllocError, Global};

impl Trace {
    /// Takes all memory of a run: for so many cells and frames, two of which hold the input's cells and
    /// as many undefined ones as the result takes.
    pub fn start(
        alloc: Global,
        input: &[Cell],
        target: u64,
        cells: u64,
        frames: u32,
    ) -> Result<Trace, AllocError>
        requires cells { length input.now + target ≤ cells }
        requires frames { 2 ≤ frames }
        ensures { IfOk result (λ trace. trace ≡ begun (cells_of input.now) target cells frames) }
    {
        let mut made = Frames::start(alloc, cells, frames)?;
        let len = input.len() as u64;
        made.new_frame(len);
        write_cells(&mut made, input);
        made.move_frame();
        made.new_frame(target);
        Ok(Trace {
            frames: made,
            room: cells,
            places: frames,
            totals: Totals {
                count: 0,
                work: 0,
                cells: len + target,
                frames: 2,
            },
        })
    }
}

/// Writes cells to a new frame, which they fill.
fn write_cells(frames: &mut Frames, cells: &[Cell])
    requires { frames.old.writes ≡ frame (undefined (length cells.now)) ∷ [] }
    ensures { frames.new ≡ record frames.old {
      writes = record { before = cells_of cells.now; after = [] } ∷ [];
    } }
{
    for cell in cells {
        write_cell(frames, *cell);
    }
}

/// Writes a cell at the cursor of the top write frame, where an undefined one stands.
fn write_cell(frames: &mut Frames, cell: Cell)
    requires { HasAfter 1 frames.old.writes }
    ensures { frames.new ≡ record frames.old { writes = on_top (put_cell (cell_of cell)) frames.old.writes } }
{
    match cell {
        Cell::Zero => frames.write(false),
        Cell::One => frames.write(true),
        Cell::Undefined => frames.skip(1),
    }
}
