//! The cells of the buffer, whose one change is that some are replaced by others.

ghost use Rattle.std.specs.Prelude.{◌≡◌, ◌+◌, ◌<◌, ◌≤◌, ◌⊎◌, [], ◌∷◌, length, slice_get, Some, IfOk};
ghost use Rattle.simplicity.specs.Cells.{Bit, undefined};
ghost use Rattle.frame_stack.specs.Bits.{cell_of};
ghost use Rattle.frame_stack.specs.Parts.{part, paste};

use std::alloc::{AllocError, Global};
use std::marker::Model;

/// A cell: a bit, or undefined.
#[derive(Clone, Copy, Debug, PartialEq, Eq)]
pub enum Cell {
    Zero,
    One,
    Undefined,
}

/// So many cells.
#[derive(Drop)]
pub(crate) struct Cells {
    cells: Vec<Cell>,
}

impl Model for Cells {
    ghost use Rattle.std.specs.Prelude.{List};
    ghost use Rattle.simplicity.specs.Cells.{Cell};
    ghost use Rattle.frame_stack.specs.Bits.{cells_of};

    ghost Value = { List Cell };

    ghost view = { λ c. cells_of c.cells.items };
}

impl Cells {
    /// So many undefined cells.
    pub(crate) fn new(alloc: Global, count: usize) -> Result<Cells, AllocError>
        ensures { IfOk result (λ cells. cells ≡ undefined count) }
    {
        let mut cells = Vec::new(alloc);
        cells.resize(count, Cell::Undefined)?;
        Ok(Cells { cells })
    }

    /// The number of cells.
    pub(crate) fn len(&self) -> usize
        ensures { result ≡ length self.now }
    {
        self.cells.len()
    }

    /// The cell at a place.
    pub(crate) fn get(&self, place: usize) -> Cell
        requires { place < length self.now }
        ensures { slice_get self.now place ≡ Some (cell_of result) }
    {
        self.cells[place]
    }

    /// Replaces the cell at a place.
    pub(crate) fn set(&mut self, place: usize, cell: Cell)
        requires { place < length self.old }
        ensures { self.new ≡ paste place (cell_of cell ∷ []) self.old }
    {
        self.cells[place] = cell;
    }

    /// Makes cells from a place on undefined.
    pub(crate) fn clear(&mut self, from: usize, count: usize)
        requires { from + count ≤ length self.old }
        ensures { self.new ≡ paste from (undefined count) self.old }
    {
        for done in 0..count {
            self.cells[from + done] = Cell::Undefined;
        }
    }

    /// Copies cells to another place, at or before their own or past their end.
    pub(crate) fn shift(&mut self, from: usize, to: usize, count: usize)
        requires from { from + count ≤ length self.old }
        requires to { to + count ≤ length self.old }
        requires apart { (to ≤ from) ⊎ (from + count ≤ to) }
        ensures { self.new ≡ paste to (part from count self.old) self.old }
    {
        for done in 0..count {
            self.cells[to + done] = self.cells[from + done];
        }
    }
}

/// The cell of a bit.
pub(crate) fn bit_cell(bit: bool) -> Cell
    ensures { cell_of result ≡ Bit bit }
{
    if bit { Cell::One } else { Cell::Zero }
}
