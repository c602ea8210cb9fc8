//! Frames on a buffer that they fill, and a run of some instructions.

use frame_stack::{Cell, Frames};
use machine_moves::{Instruction, Totals, Trace};
use std::test::Fail;

#[test]
fn frames_fill_the_buffer(rt: HostRuntime) -> Result<(), Fail> {
    let mut frames = Frames::start(rt.alloc(), 16, 2)?;
    frames.new_frame(8);
    frames.move_frame();
    frames.new_frame(8);
    frames.write(true);
    frames.drop_frame();
    frames.new_frame(8);
    frames.move_frame();
    assert_eq!(rt; frames.spare_cells(), 0);
    assert_eq!(rt; frames.spare_frames(), 0);
    assert_eq!(rt; frames.cell(0), Cell::One);
    assert_eq!(rt; frames.cell(1), Cell::Undefined);
    Ok(())
}

#[test]
fn instructions_add_up(rt: HostRuntime) -> Result<(), Fail> {
    let input = [Cell::One, Cell::Undefined];
    let mut trace = Trace::start(rt.alloc(), &input, 2, 6, 3)?;
    assert_eq!(rt; trace.bit(), true);
    trace.take(Instruction::NewFrame(2));
    trace.take(Instruction::Copy(2));
    trace.take(Instruction::MoveFrame);
    trace.take(Instruction::Forward(1));
    trace.take(Instruction::Back(1));
    trace.take(Instruction::Write(false));
    trace.take(Instruction::Skip(1));
    trace.take(Instruction::DropFrame);
    trace.take(Instruction::Nop);
    let want = Totals {
        count: 9,
        work: 14,
        cells: 6,
        frames: 3,
    };
    assert_eq!(rt; trace.totals(), want);
    Ok(())
}
