ghost use Rattle.std.specs.Prelude.{◌≡◌, ◌<◌, ◌≤◌, [], ◌∷◌, map, length, slice_get, Some};
ghost use Rattle.rapid_model.specs.declared.event.Event.{Event};
ghost use Rattle.cell_meaning.specs.Fates.{fates_after};
ghost use Rattle.history_text.specs.Lines.{fate_line, fate_lines, setpoint_line, task_axes, task_name};
ghost use Rattle.run_lines.specs.Output.{lines_of};
ghost use Rattle.run_lines.specs.EventsShown.{event_lines, shown_line};
ghost use Rattle.sink_lines.specs.Printed.{sunk};
ghost use Rattle.sink_lines.specs.Written.{Writes};

use crate::shown::Shown;
use crate::summary::print_summary;
use arrayvec::ArrayString;
use cell_core::Core;
use history_text::{Names, has_line, line_of, names_of, write_fate, write_setpoint};
use outside::{Failed, Sink};
use rapid_limits::MOST_TASKS;
use rapid_model::{Event, Fate, NameText, TaskRow};
use rapid_num::Joints;
use sink_lines::write_all;

/// Prints the lines of the events or their summary, and then the fate of each task. Takes no memory.
pub fn print_run<O: Sink>(out: &mut O, core: &Core, shown: Shown) -> Result<(), Failed>
    ensures { Writes (lines_of shown core.now.cell core.now.history (fates_after core.now.cell core.now.history (length core.now.cell.tasks))) result (sunk O.told O.calls O.faults out.old out.new) }
{
    print_shown(out, core, shown)?;
    print_fates(out, core)
}

/// Prints the lines of the events, or their summary.
fn print_shown<O: Sink>(out: &mut O, core: &Core, shown: Shown) -> Result<(), Failed>
    ensures { Writes (event_lines shown core.now.cell core.now.history) result (sunk O.told O.calls O.faults out.old out.new) }
{
    match shown {
        Shown::Events { full } => print_events(out, core, full),
        Shown::Summary => print_summary(out, core),
    }
}

/// Prints the lines of the events in order, one for each event if `full`.
fn print_events<O: Sink>(out: &mut O, core: &Core, full: bool) -> Result<(), Failed>
    ensures { Writes (map (shown_line full core.now.cell.tasks) core.now.history) result (sunk O.told O.calls O.faults out.old out.new) }
{
    for k in 0..core.len() {
        print_event(out, core, full, k)?;
    }
    Ok(())
}

/// Prints the line of event `k`, if it has one.
fn print_event<O: Sink>(out: &mut O, core: &Core, full: bool, k: u32) -> Result<(), Failed>
    requires { k < length core.now.history }
    ensures { (e : Event) → slice_get core.now.history k ≡ Some e → Writes (shown_line full core.now.cell.tasks e ∷ []) result (sunk O.told O.calls O.faults out.old out.new) }
{
    if !full {
        if !core.is_lined(k) {
            return Ok(());
        }
        if let Some((actor, to)) = core.given(k) {
            return print_setpoint(out, core, actor, &to);
        }
    }
    let event = core.event(k);
    if !full && !has_line(&event) {
        return Ok(());
    }
    print_line(out, &names_of(core.cell()), full, &event)
}

/// Prints the line of a setpoint that was given.
fn print_setpoint<O: Sink>(out: &mut O, core: &Core, actor: u32, to: &Joints) -> Result<(), Failed>
    ensures { Writes (setpoint_line (task_name core.now.cell.tasks actor) (task_axes core.now.cell.tasks actor) to.now ∷ []) result (sunk O.told O.calls O.faults out.old out.new) }
{
    let mut line = ArrayString::new();
    write_setpoint(rows_of(core), actor, to, &mut line);
    write_all(out, line.as_str().as_bytes())
}

/// Prints the line of an event.
fn print_line<O: Sink>(
    out: &mut O,
    names: &Names<'_>,
    full: bool,
    event: &Event,
) -> Result<(), Failed>
    ensures { Writes (shown_line full names.now.tasks.now event.now ∷ []) result (sunk O.told O.calls O.faults out.old out.new) }
{
    let mut line = ArrayString::new();
    line_of(names, event, full, &mut line);
    write_all(out, line.as_str().as_bytes())
}

/// The tasks of a core's cell: there are few.
fn rows_of(core: &Core) -> &[TaskRow]
    ensures rows { result.now ≡ core.now.cell.tasks }
    ensures few { length result.now ≤ MOST_TASKS }
{
    let cell = core.cell();
    let _steps = cell.steps();
    cell.tasks().as_slice()
}

/// Prints the fate of each task, in script order.
pub fn print_fates<O: Sink>(out: &mut O, core: &Core) -> Result<(), Failed>
    ensures { Writes (fate_lines core.now.cell.tasks (fates_after core.now.cell core.now.history (length core.now.cell.tasks))) result (sunk O.told O.calls O.faults out.old out.new) }
{
    let rows = rows_of(core);
    for (task, row) in rows.iter().enumerate() {
        let fate = core.fate(task as u32);
        print_fate(out, &row.name, &fate)?;
    }
    Ok(())
}

/// Prints the fate of a task.
fn print_fate<O: Sink>(out: &mut O, name: &NameText, fate: &Fate) -> Result<(), Failed>
    ensures { Writes (fate_line name.now fate.now ∷ []) result (sunk O.told O.calls O.faults out.old out.new) }
{
    let mut line = ArrayString::new();
    write_fate(name, fate, &mut line);
    write_all(out, line.as_str().as_bytes())
}
