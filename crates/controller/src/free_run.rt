ghost use Rattle.std.specs.Prelude.{◌≡◌, ℕ, ◌↔◌, Bool, Some, true, map};
ghost use Rattle.typed_trees.specs.Views.{view_tree};
ghost use Rattle.outside.specs.Count.{Rose};
ghost use Rattle.cell_loading.specs.Loaded.{made_of};
ghost use Rattle.controller.specs.Ready.{HasScript};
ghost use Rattle.controller.specs.Runs.{IsRun};
ghost use Rattle.command_words.specs.Words.{is_run, refused_place};
ghost use Rattle.sink_lines.specs.Printed.{sunk};
ghost use Rattle.controller.specs.Answered.{AnswersWords, RunsOrMemory};
ghost use Rattle.controller.specs.Complete.{IsComplete};

use crate::accepted::accepted_cell;
use crate::prepared::Prepared;
use crate::report::{Report, refuse};
use crate::run::{report_run, within_limits};
use accepted_cells::{
    accepted_code_suits_its_task, accepted_tasks_ask_as_their_code, accepted_tasks_ask_well,
};
use cell_loading::{CheckedCell, Refused};
use cell_runs::free_tasks;
use command_words::Action;
use outside::{Pace, Shelf, Sink};
use run_lines::Shown;
use std::alloc::Global;
use std::convert::AsSlice;
use std::marker::Brand;
use std::sync::Wait;
use std::thread::Threads;

/// Does what the command words say, which ask for `run` (`is_run`), with the script in the file CELL and the modules
/// that it names. `run CELL` runs each task of the cell on its own thread, with the input script beside them. The first
/// sink then gets the lines of that run, in the form in which `quiet` prints `round CELL`, with and without
/// `--history`. A task that gets no thread runs beside the input script. The history is one that the tasks and the
/// input script can make together, and may differ from call to call. `pace` is done between the steps of a task. A
/// refusal is one line on the second sink.
///
/// It waits for the tasks; its clauses hold if it returns.
pub fn free<R: Threads + Wait + Sync, W: AsSlice<u8>, S: Shelf, O: Sink, E: Sink, P: Pace + Sync>(
    rt: &R,
    alloc: Global,
    words: &[W],
    shelf: &mut S,
    out: &mut O,
    err: &mut E,
    pace: &P,
) -> Report
    requires { is_run (map W.items words.now) ≡ true }
    // The report answers what the words and the files come to.
    ensures answers { AnswersWords (map W.items words.now) (S.told shelf.old) result (sunk O.told O.calls O.faults out.old out.new) (sunk E.told E.calls E.faults err.old err.new) }
    // Words are refused exactly if they are wrong, whatever the shelf reports.
    ensures words { (place : ℕ) → (result.refused ≡ Some (Refused.Words place)) ↔ (refused_place (map W.items words.now) ≡ Some place) }
    // A read fails only if the shelf counted a fault, and a write only if the first sink did.
    ensures read { (file : ℕ) → result.refused ≡ Some (Refused.Read file) → Rose (S.faults shelf.old) (S.faults shelf.new) }
    ensures write { result.refused ≡ Some Refused.Write → Rose (O.faults out.old) (O.faults out.new) }
    // If no write fails, what the words and the files come to is done, or memory ran out before the first event.
    ensures done { IsComplete (map W.items words.now) (S.told shelf.old) result (sunk O.told O.calls O.faults out.old out.new) (sunk E.told E.calls E.faults err.old err.new) }
{
    match accepted_cell(alloc, words, shelf, err) {
        Ok((action, prepared)) => {
            let full = is_full(action);
            let Prepared { accepted, .. } = prepared;
            free_cell(rt, alloc, accepted, full, out, err, pace)
        }
        Err(report) => report,
    }
}

/// Whether the action is `run` with the whole history printed.
fn is_full(action: Action) -> bool
    ensures { (full : Bool) → action ≡ Action.Run full → result ≡ full }
{
    match action {
        Action::Run { full } => full,
        _ => false,
    }
}

/// Runs the tasks of an accepted cell on threads and reports the run, with a line for each event if `full`.
fn free_cell<R: Threads + Wait + Sync, O: Sink, E: Sink, P: Pace + Sync>(
    rt: &R,
    alloc: Global,
    accepted: CheckedCell,
    full: bool,
    out: &mut O,
    err: &mut E,
    pace: &P,
) -> Report
    requires { HasScript (made_of accepted) }
    ensures { RunsOrMemory (IsRun accepted.cell (map view_tree accepted.trees.items)) (Shown.Events full) accepted.cell result (sunk O.told O.calls O.faults out.old out.new) (sunk E.told E.calls E.faults err.old err.new) }
{
    accepted_tasks_ask_well();
    accepted_tasks_ask_as_their_code();
    accepted_code_suits_its_task();
    let CheckedCell { cell, trees } = accepted;
    within_limits(&cell);
    match free_tasks::<Brand, R, P>(rt, alloc, cell, trees.as_slice(), pace) {
        Ok(core) => report_run(core, Shown::Events { full }, out, err),
        Err(_) => refuse(alloc, err, "", Refused::Memory),
    }
}
