//! Frames: two stacks on one buffer, read frames from its start and write frames from its end.

ghost use Rattle.std.specs.Prelude.{◌≡◌, ◌+◌, ◌<◌, ◌≤◌, [], ◌∷◌, length, drop, slice_get, Some, IfOk};
ghost use Rattle.simplicity.specs.Cells.{Bit, undefined};
ghost use Rattle.simplicity.specs.Machine.{frame, put, forth, back};
ghost use Rattle.frame_stack.specs.Bits.{cell_of};
ghost use Rattle.frame_stack.specs.Stacks.{HasAfter, HasBefore, HasCell, on_top, cells_ahead, moved, all_cells, cells_held, frames_held};

use crate::cells::{Cell, Cells, bit_cell};
use crate::span::{Span, SpanStack};
use std::alloc::{AllocError, Global};
use std::marker::Model;

/// Read frames and write frames, each a stack, on one buffer of cells. All memory is taken at the start.
#[derive(Drop)]
pub struct Frames {
    cells: Cells,
    reads: SpanStack,
    writes: SpanStack,
    // The read frames lie before this cell, end to end, and the write frames from the other one on.
    low: usize,
    high: usize,
}

impl Model for Frames {
    ghost use Rattle.frame_stack.specs.Stacks.{Stacks};

    ghost Value = { Stacks };

    ghost use Rattle.frame_stack.specs.Laid.{stacks_of, AreLaid};

    ghost view = { λ f. stacks_of f.cells f.reads f.writes };

    ghost invariant = { λ f. AreLaid f.cells f.reads f.writes f.low f.high };
}

impl Frames {
    /// Takes memory for so many cells and frames; no frame is there yet.
    pub fn start(alloc: Global, cells: u64, frames: u32) -> Result<Frames, AllocError>
        ensures { IfOk result (λ made.
            made ≡ record { reads = []; writes = []; room = cells; places = frames }) }
    {
        let room = cells as usize;
        let cells = Cells::new(alloc, room)?;
        let reads = SpanStack::new(alloc, frames as usize)?;
        let writes = SpanStack::new(alloc, frames as usize)?;
        Ok(Frames {
            cells,
            reads,
            writes,
            low: 0,
            high: room,
        })
    }

    /// How many cells no frame has.
    pub fn spare_cells(&self) -> u64
        ensures { result + cells_held self.now ≡ self.now.room }
    {
        (self.high - self.low) as u64
    }

    /// How many frames there is still place for.
    pub fn spare_frames(&self) -> u32
        ensures { result + frames_held self.now ≡ self.now.places }
    {
        (self.reads.places() - self.reads.len() - self.writes.len()) as u32
    }

    /// The cell at a place of the top write frame.
    pub fn cell(&self, place: u64) -> Cell
        requires { HasCell place self.now.writes }
        ensures { slice_get (all_cells self.now.writes) place ≡ Some (cell_of result) }
    {
        let top = self.writes.top();
        self.cells.get(top.start + place as usize)
    }

    /// The cell at the cursor of the top read frame.
    pub fn read(&self) -> Cell
        requires { HasAfter 1 self.now.reads }
        ensures { cells_ahead 1 self.now.reads ≡ cell_of result ∷ [] }
    {
        let top = self.reads.top();
        self.cells.get(top.start + top.cursor)
    }

    /// Writes a bit at the cursor of the top write frame, and moves the cursor behind it.
    pub fn write(&mut self, bit: bool)
        requires { HasAfter 1 self.old.writes }
        ensures { self.new ≡ record self.old { writes = on_top (put (Bit bit ∷ [])) self.old.writes } }
    {
        let top = self.writes.top();
        self.cells.set(top.start + top.cursor, bit_cell(bit));
        self.writes.set_top(top.with_cursor(top.cursor + 1));
    }

    /// Copies cells from the cursor of the top read frame to that of the top write frame, which moves behind them.
    pub fn copy(&mut self, n: u64)
        requires from { HasAfter n self.old.reads }
        requires to { HasAfter n self.old.writes }
        ensures { self.new ≡ record self.old {
          writes = on_top (put (cells_ahead n self.old.reads)) self.old.writes;
        } }
    {
        let from = self.reads.top();
        let to = self.writes.top();
        let count = n as usize;
        self.cells
            .shift(from.start + from.cursor, to.start + to.cursor, count);
        self.writes.set_top(to.with_cursor(to.cursor + count));
    }

    /// Moves the cursor of the top write frame onward.
    pub fn skip(&mut self, n: u64)
        requires { HasAfter n self.old.writes }
        ensures { self.new ≡ record self.old { writes = on_top (forth n) self.old.writes } }
    {
        let top = self.writes.top();
        self.writes
            .set_top(top.with_cursor(top.cursor + n as usize));
    }

    /// Moves the cursor of the top read frame onward.
    pub fn fwd(&mut self, n: u64)
        requires { HasAfter n self.old.reads }
        ensures { self.new ≡ record self.old { reads = on_top (forth n) self.old.reads } }
    {
        let top = self.reads.top();
        self.reads.set_top(top.with_cursor(top.cursor + n as usize));
    }

    /// Moves the cursor of the top read frame back.
    pub fn bwd(&mut self, n: u64)
        requires { HasBefore n self.old.reads }
        ensures { self.new ≡ record self.old { reads = on_top (back n) self.old.reads } }
    {
        let top = self.reads.top();
        self.reads.set_top(top.with_cursor(top.cursor - n as usize));
    }

    /// Puts a write frame of undefined cells on top. It takes no memory.
    pub fn new_frame(&mut self, n: u64)
        requires room { n + cells_held self.old ≤ self.old.room }
        requires place { frames_held self.old < self.old.places }
        ensures { self.new ≡ record self.old { writes = frame (undefined n) ∷ self.old.writes } }
    {
        let len = n as usize;
        let start = self.high - len;
        self.cells.clear(start, len);
        self.writes.push(Span {
            start,
            len,
            cursor: 0,
        });
        self.high = start;
    }

    /// Moves the top write frame to the read frames, with its cursor at the start.
    pub fn move_frame(&mut self)
        requires { HasAfter 0 self.old.writes }
        ensures { self.new ≡ record self.old {
          reads = moved self.old.writes self.old.reads;
          writes = drop 1 self.old.writes;
        } }
    {
        let top = self.writes.top();
        let start = self.low;
        self.cells.shift(top.start, start, top.len);
        self.writes.pop();
        self.reads.push(Span {
            start,
            len: top.len,
            cursor: 0,
        });
        self.low = start + top.len;
        self.high = top.start + top.len;
    }

    /// Drops the top read frame.
    pub fn drop_frame(&mut self)
        requires { HasAfter 0 self.old.reads }
        ensures { self.new ≡ record self.old { reads = drop 1 self.old.reads } }
    {
        let top = self.reads.top();
        self.reads.pop();
        self.low = top.start;
    }
}
