ghost use Rattle.std.specs.Prelude.{◌≡◌, ◌≤◌, length};
ghost use Rattle.std.specs.List.{list_any};
ghost use Rattle.cell_meaning.specs.Fates.{fates_after};
ghost use Rattle.cell_runs.specs.Outcomes.{is_fault, run_status};

use cell_core::Core;
use rapid_limits::MOST_TASKS;
use rapid_model::Fate;

/// The status of a printed run: if all tasks ended, 1 if one ended with a fault, else 0; otherwise 9 if the steps are
/// spent, and 8 if no task that has not ended can go on.
pub fn status_of_run(core: &Core) -> u8
    ensures { result ≡ run_status core.now.cell core.now.history }
{
    if core.all_ended() {
        if has_fault(core) { 1 } else { 0 }
    } else if core.spent() {
        9
    } else {
        8
    }
}

/// Whether a task ended with a fault.
fn has_fault(core: &Core) -> bool
    ensures { result ≡ list_any is_fault (fates_after core.now.cell core.now.history (length core.now.cell.tasks)) }
{
    let tasks = task_count(core);
    let mut found = false;
    for task in 0..tasks {
        found = found || is_faulty(core.fate(task as u32));
    }
    found
}

/// How many tasks the cell of a core has: there are few.
fn task_count(core: &Core) -> usize
    ensures count { result ≡ length core.now.cell.tasks }
    ensures few { result ≤ MOST_TASKS }
{
    let cell = core.cell();
    let _steps = cell.steps();
    cell.tasks().len()
}

fn is_faulty(fate: Fate) -> bool
    ensures { result ≡ is_fault fate }
{
    matches!(fate, Fate::Fault(_))
}
