//! A run without what is left to do: its frames and its totals.

ghost use Rattle.std.specs.Prelude.{◌≡◌, ◌+◌, ◌^◌, ◌<◌, [], ◌∷◌};
ghost use Rattle.simplicity.specs.Cells.{Bit};
ghost use Rattle.simplicity.specs.Machine.{charged};
ghost use Rattle.frame_stack.specs.Bits.{cell_of};
ghost use Rattle.frame_stack.specs.Stacks.{cells_ahead};
ghost use Rattle.machine_moves.specs.Moves.{IsReady, after, work_of, taken, HasBit};
ghost use Rattle.machine_moves.specs.Traced.{totals_of};

use frame_stack::{Cell, Frames};
use std::marker::Model;

/// An instruction that doesn't fail, other than a read.
#[derive(Clone, Copy, Debug, PartialEq, Eq)]
pub enum Instruction {
    Write(bool),
    Skip(u64),
    Copy(u64),
    Forward(u64),
    Back(u64),
    NewFrame(u64),
    MoveFrame,
    DropFrame,
    Nop,
}

/// What a run has cost so far: its instructions, their work, and its peaks of cells and of frames over both stacks.
#[derive(Clone, Copy, Debug, PartialEq, Eq)]
pub struct Totals {
    pub count: u64,
    pub work: u64,
    pub cells: u64,
    pub frames: u64,
}

/// The frames of a run and its totals. All memory is taken at the start.
#[derive(Drop)]
pub struct Trace {
    pub(crate) frames: Frames,
    pub(crate) room: u64,
    pub(crate) places: u32,
    pub(crate) totals: Totals,
}

impl Model for Trace {
    ghost use Rattle.std.specs.Prelude.{◌≡◌};
    ghost use Rattle.machine_moves.specs.Traced.{Traced, totals_of};

    ghost Value = { Traced };

    ghost view = { λ t. record { stacks = t.frames; totals = totals_of t.totals } };

    ghost invariant = { λ t. (t.room ≡ t.frames.room) × (t.places ≡ t.frames.places) };
}

impl Trace {
    /// Does an instruction, and adds what it costs.
    pub fn take(&mut self, instruction: Instruction)
        requires ready { IsReady instruction self.old.stacks }
        requires count { self.old.totals.count + 1 < 2 ^ 64 }
        requires work { self.old.totals.work + work_of instruction < 2 ^ 64 }
        ensures { self.new ≡ taken instruction self.old }
    {
        let work = move_by(&mut self.frames, instruction);
        self.totals = after_work(self.totals, &self.frames, self.room, self.places, work);
    }

    /// The bit at the cursor of the top read frame.
    pub fn bit(&self) -> bool
        requires { HasBit (cells_ahead 1 self.now.stacks.reads) }
        ensures { cells_ahead 1 self.now.stacks.reads ≡ Bit result ∷ [] }
    {
        bit_of(self.frames.read())
    }

    /// The totals so far.
    pub fn totals(&self) -> Totals
        ensures { totals_of result ≡ self.now.totals }
    {
        self.totals
    }
}

/// Does an instruction on the frames, and gives its work.
fn move_by(frames: &mut Frames, instruction: Instruction) -> u64
    requires ready { IsReady instruction frames.old }
    requires fits { work_of instruction < 2 ^ 64 }
    ensures work { result ≡ work_of instruction }
    ensures frames { frames.new ≡ after instruction frames.old }
{
    match instruction {
        Instruction::Write(bit) => frames.write(bit),
        Instruction::Skip(n) => {
            frames.skip(n);
            return 1 + n;
        }
        Instruction::Copy(n) => {
            frames.copy(n);
            return 1 + n;
        }
        Instruction::Forward(n) => frames.fwd(n),
        Instruction::Back(n) => frames.bwd(n),
        Instruction::NewFrame(n) => {
            frames.new_frame(n);
            return 1 + n;
        }
        Instruction::MoveFrame => frames.move_frame(),
        Instruction::DropFrame => frames.drop_frame(),
        Instruction::Nop => {}
    }
    1
}

/// The totals once an instruction of this work has led to these frames.
fn after_work(totals: Totals, frames: &Frames, room: u64, places: u32, work: u64) -> Totals
    requires room { room ≡ frames.now.room }
    requires places { places ≡ frames.now.places }
    requires count { totals.count + 1 < 2 ^ 64 }
    requires work { totals.work + work < 2 ^ 64 }
    ensures { totals_of result ≡ charged work frames.now.reads frames.now.writes (totals_of totals) }
{
    let cells = room - frames.spare_cells();
    let taken = u64::from(places - frames.spare_frames());
    Totals {
        count: totals.count + 1,
        work: totals.work + work,
        cells: totals.cells.max(cells),
        frames: totals.frames.max(taken),
    }
}

/// The bit that a cell holds.
fn bit_of(cell: Cell) -> bool
    requires { HasBit (cell_of cell ∷ []) }
    ensures { cell_of cell ≡ Bit result }
{
    match cell {
        Cell::Zero => false,
        Cell::One => true,
        Cell::Undefined => unreachable!(),
    }
}
