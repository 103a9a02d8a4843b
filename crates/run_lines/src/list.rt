ghost use Rattle.std.specs.Prelude.{◌≡◌, ◌<◌, ◌^◌, [], ◌∷◌, length, slice_get, Some};
ghost use Rattle.stack_code.specs.declared.op.Op.{Op};
ghost use Rattle.cell_listing.specs.Listing.{pers_line, signal_line, meeting_line, code_line, numbered, cell_lines, code_lines, listing_of};
ghost use Rattle.sink_lines.specs.Printed.{sunk};
ghost use Rattle.sink_lines.specs.Written.{Writes};

use arrayvec::ArrayString;
use cell_listing::{write_meeting, write_operation, write_persistent, write_signal};
use outside::{Failed, Sink};
use rapid_model::{Cell, NameText, PersCell, SignalRow, TaskRow};
use sink_lines::write_all;
use stack_code::Op;
use task_code::Code;

/// Prints the tables of a cell, and then the code of its tasks. Takes no memory.
pub fn print_list<O: Sink>(out: &mut O, cell: &Cell, each: &[Code]) -> Result<(), Failed>
    ensures { Writes (listing_of cell.now each.now) result (sunk O.told O.calls O.faults out.old out.new) }
{
    print_cell(out, cell)?;
    print_programs(out, cell.tasks().as_slice(), each)
}

/// Prints the persistents, the signals and the meetings.
fn print_cell<O: Sink>(out: &mut O, cell: &Cell) -> Result<(), Failed>
    ensures { Writes (cell_lines cell.now) result (sunk O.told O.calls O.faults out.old out.new) }
{
    let tasks = cell.tasks().as_slice();
    let pers = cell.pers().as_slice();
    let signals = cell.signals().as_slice();
    let meetings = cell.meetings().as_slice();
    print_persistents(out, tasks, pers)?;
    print_signals(out, signals)?;
    print_meetings(out, meetings)
}

fn print_persistents<O: Sink>(
    out: &mut O,
    tasks: &[TaskRow],
    rows: &[PersCell],
) -> Result<(), Failed>
    ensures { Writes (numbered (pers_line tasks.now) 0 rows.now) result (sunk O.told O.calls O.faults out.old out.new) }
{
    for (k, row) in rows.iter().enumerate() {
        print_persistent(out, tasks, k, row)?;
    }
    Ok(())
}

fn print_persistent<O: Sink>(
    out: &mut O,
    tasks: &[TaskRow],
    number: usize,
    row: &PersCell,
) -> Result<(), Failed>
    ensures { Writes (pers_line tasks.now number row.now ∷ []) result (sunk O.told O.calls O.faults out.old out.new) }
{
    let mut line = ArrayString::new();
    write_persistent(tasks, number, row, &mut line);
    write_all(out, line.as_str().as_bytes())
}

fn print_signals<O: Sink>(out: &mut O, rows: &[SignalRow]) -> Result<(), Failed>
    ensures { Writes (numbered signal_line 0 rows.now) result (sunk O.told O.calls O.faults out.old out.new) }
{
    for (k, row) in rows.iter().enumerate() {
        print_signal(out, k, row)?;
    }
    Ok(())
}

fn print_signal<O: Sink>(out: &mut O, number: usize, row: &SignalRow) -> Result<(), Failed>
    ensures { Writes (signal_line number row.now ∷ []) result (sunk O.told O.calls O.faults out.old out.new) }
{
    let mut line = ArrayString::new();
    write_signal(number, row, &mut line);
    write_all(out, line.as_str().as_bytes())
}

fn print_meetings<O: Sink>(out: &mut O, names: &[NameText]) -> Result<(), Failed>
    ensures { Writes (numbered meeting_line 0 names.now) result (sunk O.told O.calls O.faults out.old out.new) }
{
    for (k, name) in names.iter().enumerate() {
        print_meeting(out, k, name)?;
    }
    Ok(())
}

fn print_meeting<O: Sink>(out: &mut O, number: usize, name: &NameText) -> Result<(), Failed>
    ensures { Writes (meeting_line number name.now ∷ []) result (sunk O.told O.calls O.faults out.old out.new) }
{
    let mut line = ArrayString::new();
    write_meeting(number, name, &mut line);
    write_all(out, line.as_str().as_bytes())
}

/// Prints the operations of each task's code, in script order.
fn print_programs<O: Sink>(out: &mut O, rows: &[TaskRow], each: &[Code]) -> Result<(), Failed>
    ensures { Writes (code_lines rows.now each.now) result (sunk O.told O.calls O.faults out.old out.new) }
{
    let count = rows.len().min(each.len());
    for k in 0..count {
        print_program(out, &rows[k], &each[k])?;
    }
    Ok(())
}

/// Prints the operations of a task's code.
fn print_program<O: Sink>(out: &mut O, row: &TaskRow, code: &Code) -> Result<(), Failed>
    ensures { Writes (numbered (code_line row.now.name) 0 code.now.ops) result (sunk O.told O.calls O.faults out.old out.new) }
{
    // Code has fewer than 2^32 operations.
    let _main = code.linked.main;
    print_operations(out, &row.name, code.linked.ops.as_slice())
}

fn print_operations<O: Sink>(out: &mut O, task: &NameText, ops: &[Op]) -> Result<(), Failed>
    requires { length ops.now < 2 ^ 32 }
    ensures { Writes (numbered (code_line task.now) 0 ops.now) result (sunk O.told O.calls O.faults out.old out.new) }
{
    for pc in 0..ops.len() as u32 {
        print_operation(out, task, ops, pc)?;
    }
    Ok(())
}

/// Prints the operation at a place in a task's code, from 0.
fn print_operation<O: Sink>(out: &mut O, task: &NameText, ops: &[Op], pc: u32) -> Result<(), Failed>
    requires { pc < length ops.now }
    ensures { (op : Op) → slice_get ops.now pc ≡ Some op → Writes (code_line task.now pc op ∷ []) result (sunk O.told O.calls O.faults out.old out.new) }
{
    let mut line = ArrayString::new();
    write_operation(task, ops, pc, &mut line);
    write_all(out, line.as_str().as_bytes())
}
