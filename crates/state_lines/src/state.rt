//! The lines of a state.

ghost use Rattle.std.specs.Prelude.{◌≡◌, ◌<◌, ◌≤◌, ◌+◌, ◌^◌, [], ◌∷◌, ◌++◌, All, drop, if◌then◌else◌, length, map, take};
ghost use Rattle.rapid_limits.specs.declared.TheConstants.{LONGEST_FILE_NAME};
ghost use Rattle.typed_trees.specs.Views.{view_slot, view_tree};
ghost use Rattle.cell_listing.specs.Listing.{numbered};
ghost use Rattle.state_text.specs.Seen.{view_sources};
ghost use Rattle.state_text.specs.StateLines.{datum_line, datum_lines, element_of, is_shown, row_lines, state_lines, task_line, tasks_lines, value_line, value_lines};
ghost use Rattle.state_lines.specs.Sources.{sources_in, view_modules};
ghost use Rattle.cell_loading.specs.Loaded.{bytes_of, AreShort, IsWithin};
ghost use Rattle.sink_lines.specs.Printed.{sunk};
ghost use Rattle.sink_lines.specs.Written.{Writes};

use arrayvec::ArrayString;
use cell_loading::ModuleTexts;
use cell_state::{CellState, TaskState};
use history_text::{Names, names_of};
use outside::{Failed, Sink};
use rapid_model::{Cell, NameText, PersCell, ScriptTask, TaskRow, Value, width};
use sink_lines::write_all;
use state_text::{Sources, element_of, is_shown, write_datum, write_task, write_value};
use typed_trees::{Datum, SlotRow, Tree};

/// Prints the state of a cell, given the trees of its tasks and their modules. Takes no memory.
pub fn print_state<O: Sink>(
    out: &mut O,
    cell: &Cell,
    trees: &[Tree],
    modules: &Option<ModuleTexts>,
    state: &CellState,
) -> Result<(), Failed>
    requires { AreShort modules.now }
    ensures { Writes (state_lines cell.now (map view_tree trees.now) (view_modules modules.now) state.now) result (sunk O.told O.calls O.faults out.old out.new) }
{
    let names = names_of(cell);
    print_values(out, &names, state.pers.as_slice())?;
    print_tasks(out, &names, trees, modules, state.tasks.as_slice())
}

/// Prints the persistents.
fn print_values<O: Sink>(out: &mut O, names: &Names<'_>, pers: &[Vec<Value>]) -> Result<(), Failed>
    ensures { Writes (value_lines names.now.tasks.now 0 names.now.pers.now (map (λ values. values.items) pers.now)) result (sunk O.told O.calls O.faults out.old out.new) }
{
    let rows = names.pers;
    let count = rows.len().min(pers.len());
    for k in 0..count {
        let row = &rows[k];
        let values = &pers[k];
        print_elements(out, names.tasks, k, row, values.as_slice())?;
    }
    Ok(())
}

/// Prints the elements of a persistent.
fn print_elements<O: Sink>(
    out: &mut O,
    tasks: &[TaskRow],
    number: usize,
    row: &PersCell,
    values: &[Value],
) -> Result<(), Failed>
    ensures { Writes (numbered (λ index. value_line tasks.now number row.now (element_of row.now.len index)) 0 values.now) result (sunk O.told O.calls O.faults out.old out.new) }
{
    for (index, value) in values.iter().enumerate() {
        print_value(out, tasks, number, row, index, value)?;
    }
    Ok(())
}

fn print_value<O: Sink>(
    out: &mut O,
    tasks: &[TaskRow],
    number: usize,
    row: &PersCell,
    index: usize,
    value: &Value,
) -> Result<(), Failed>
    requires { index + 1 < 2 ^ 64 }
    ensures { Writes (value_line tasks.now number row.now (element_of row.now.len index) value.now ∷ []) result (sunk O.told O.calls O.faults out.old out.new) }
{
    let mut line = ArrayString::new();
    let element = element_of(row.len, index);
    write_value(tasks, number, row, element, value, &mut line);
    write_all(out, line.as_str().as_bytes())
}

/// Prints the module data of each task, and then where it is.
fn print_tasks<O: Sink>(
    out: &mut O,
    names: &Names<'_>,
    trees: &[Tree],
    modules: &Option<ModuleTexts>,
    states: &[TaskState],
) -> Result<(), Failed>
    requires { AreShort modules.now }
    ensures { Writes (tasks_lines names.now.tasks.now (map view_tree trees.now) (view_modules modules.now) states.now) result (sunk O.told O.calls O.faults out.old out.new) }
{
    match modules {
        Some(modules) => {
            // A script is within its limits.
            let _steps = modules.script.steps();
            let tasks = modules.script.tasks().as_slice();
            print_each(out, names, trees, tasks, modules.texts.as_slice(), states)
        }
        None => Ok(()),
    }
}

/// The same, given the tasks of the script and the texts of their modules.
fn print_each<O: Sink>(
    out: &mut O,
    names: &Names<'_>,
    trees: &[Tree],
    tasks: &[ScriptTask],
    texts: &[Vec<u8>],
    states: &[TaskState],
) -> Result<(), Failed>
    requires files { All (λ task. All (λ file. length file ≤ LONGEST_FILE_NAME) task.modules) tasks.now }
    requires texts { All IsWithin texts.now }
    ensures { Writes (tasks_lines names.now.tasks.now (map view_tree trees.now) (sources_in tasks.now (bytes_of texts.now)) states.now) result (sunk O.told O.calls O.faults out.old out.new) }
{
    let rows = names.tasks;
    let count = rows
        .len()
        .min(trees.len())
        .min(tasks.len())
        .min(states.len());
    let mut rest = texts;
    for k in 0..count {
        let row = &rows[k];
        let tree = &trees[k];
        let task = &tasks[k];
        let state = &states[k];
        let own = task.modules.len();
        let sources = Sources {
            files: task.modules.as_slice(),
            texts: first_of(rest, own),
        };
        print_task(
            out,
            names,
            &row.name,
            tree.slots.as_slice(),
            &sources,
            state,
        )?;
        rest = after_first(rest, own);
    }
    Ok(())
}

/// Prints the module data of a task, given their rows, and then where it is.
fn print_task<O: Sink>(
    out: &mut O,
    names: &Names<'_>,
    name: &NameText,
    slots: &[SlotRow],
    sources: &Sources<'_>,
    state: &TaskState,
) -> Result<(), Failed>
    requires files { All (λ file. length file ≤ LONGEST_FILE_NAME) sources.now.files.now }
    requires texts { All IsWithin sources.now.texts.now }
    ensures { Writes (datum_lines name.now (map view_slot slots.now) state.now.values ++ task_line name.now (view_sources sources.now) state.now ∷ []) result (sunk O.told O.calls O.faults out.old out.new) }
{
    print_data(out, name, slots, state.values.as_slice())?;
    print_place(out, names, name, sources, state)
}

/// Prints where a task is, and what it asks next.
fn print_place<O: Sink>(
    out: &mut O,
    names: &Names<'_>,
    name: &NameText,
    sources: &Sources<'_>,
    state: &TaskState,
) -> Result<(), Failed>
    requires files { All (λ file. length file ≤ LONGEST_FILE_NAME) sources.now.files.now }
    requires texts { All IsWithin sources.now.texts.now }
    ensures { Writes (task_line name.now (view_sources sources.now) state.now ∷ []) result (sunk O.told O.calls O.faults out.old out.new) }
{
    let mut line = ArrayString::new();
    write_task(names, name, sources, state, &mut line);
    write_all(out, line.as_str().as_bytes())
}

/// Prints the module data of a task, given their rows.
fn print_data<O: Sink>(
    out: &mut O,
    task: &NameText,
    rows: &[SlotRow],
    data: &[Datum],
) -> Result<(), Failed>
    ensures { Writes (datum_lines task.now (map view_slot rows.now) data.now) result (sunk O.told O.calls O.faults out.old out.new) }
{
    let mut rest = data;
    for row in rows {
        let own = width(row.len);
        print_row(out, task, row, first_of(rest, own))?;
        rest = after_first(rest, own);
    }
    Ok(())
}

/// Prints the data of a row, if they are shown.
fn print_row<O: Sink>(
    out: &mut O,
    task: &NameText,
    row: &SlotRow,
    data: &[Datum],
) -> Result<(), Failed>
    ensures { Writes (if is_shown (view_slot row.now) then row_lines task.now (view_slot row.now) data.now else []) result (sunk O.told O.calls O.faults out.old out.new) }
{
    if is_shown(row) {
        print_shown(out, task, row, data)
    } else {
        Ok(())
    }
}

/// Prints the data of a row.
fn print_shown<O: Sink>(
    out: &mut O,
    task: &NameText,
    row: &SlotRow,
    data: &[Datum],
) -> Result<(), Failed>
    ensures { Writes (row_lines task.now (view_slot row.now) data.now) result (sunk O.told O.calls O.faults out.old out.new) }
{
    for (index, datum) in data.iter().enumerate() {
        print_datum(out, task, row, index, datum)?;
    }
    Ok(())
}

fn print_datum<O: Sink>(
    out: &mut O,
    task: &NameText,
    row: &SlotRow,
    index: usize,
    datum: &Datum,
) -> Result<(), Failed>
    requires { index + 1 < 2 ^ 64 }
    ensures { Writes (datum_line task.now row.now.name (element_of row.now.len index) datum.now ∷ []) result (sunk O.told O.calls O.faults out.old out.new) }
{
    let mut line = ArrayString::new();
    let element = element_of(row.len, index);
    write_datum(task, &row.name, element, datum, &mut line);
    write_all(out, line.as_str().as_bytes())
}

/// The first elements, this many or all of them.
pub(crate) fn first_of<T>(all: &[T], count: usize) -> &[T]
    ensures { result.now ≡ take count all.now }
{
    &all[..count.min(all.len())]
}

/// The elements after the first of them, this many or all.
pub(crate) fn after_first<T>(all: &[T], count: usize) -> &[T]
    ensures { result.now ≡ drop count all.now }
{
    &all[count.min(all.len())..]
}
