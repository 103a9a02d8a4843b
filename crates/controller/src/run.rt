ghost use Rattle.std.specs.Prelude.{◌≡◌, map};
ghost use Rattle.typed_trees.specs.Views.{view_tree};
ghost use Rattle.rapid_model.specs.CellData.{IsCell};
ghost use Rattle.cell_loading.specs.Loaded.{made_of};
ghost use Rattle.controller.specs.Ready.{HasScript};
ghost use Rattle.controller.specs.Runs.{IsRunByTurns, TellsRun};
ghost use Rattle.sink_lines.specs.Printed.{sunk};
ghost use Rattle.controller.specs.Answered.{RunsOrMemory, AnswersRun, Closes};

use crate::refusal::tell_refusal;
use crate::report::{Report, refuse};
use accepted_cells::{
    accepted_code_suits_its_task, accepted_tasks_ask_as_their_code, accepted_tasks_ask_well,
};
use cell_core::Core;
use cell_loading::{CheckedCell, Refused};
use cell_runs::{run_tasks, status_of_run};
use outside::{Failed, Sink};
use rapid_model::Cell;
use run_lines::{Shown, print_run};
use std::alloc::Global;
use std::marker::Brand;

/// Runs the tasks of an accepted cell round-robin, and reports the run.
pub(crate) fn run_cell<O: Sink, E: Sink>(
    alloc: Global,
    accepted: CheckedCell,
    shown: Shown,
    out: &mut O,
    err: &mut E,
) -> Report
    requires { HasScript (made_of accepted) }
    ensures { RunsOrMemory (IsRunByTurns accepted.cell (map view_tree accepted.trees.items)) shown accepted.cell result (sunk O.told O.calls O.faults out.old out.new) (sunk E.told E.calls E.faults err.old err.new) }
{
    accepted_tasks_ask_well();
    accepted_tasks_ask_as_their_code();
    accepted_code_suits_its_task();
    let CheckedCell { cell, trees } = accepted;
    within_limits(&cell);
    match run_tasks::<Brand>(alloc, cell, trees.as_slice()) {
        Ok(core) => report_run(core, shown, out, err),
        Err(_) => refuse(alloc, err, "", Refused::Memory),
    }
}

/// Prints a run and reports it, whichever way its tasks were run.
pub(crate) fn report_run<O: Sink, E: Sink>(
    core: Core,
    shown: Shown,
    out: &mut O,
    err: &mut E,
) -> Report
    ensures { AnswersRun (TellsRun core.cell core.history) shown core.cell result (sunk O.told O.calls O.faults out.old out.new) (sunk E.told E.calls E.faults err.old err.new) }
{
    let status = status_of_run(&core);
    let printed = print_run(out, &core, shown);
    report_printed(core, status, printed, err)
}

/// Reports a run with this status whose lines were printed, or not all of them.
pub(crate) fn report_printed<E: Sink>(
    core: Core,
    status: u8,
    printed: Result<(), Failed>,
    err: &mut E,
) -> Report
    ensures tells { TellsRun core.cell core.history result }
    ensures closed { Closes status printed result (sunk E.told E.calls E.faults err.old err.new) }
{
    match printed {
        Ok(()) => report_of(core, status, None),
        Err(_) => {
            tell_refusal(err, "", &Refused::Write);
            report_of(core, 6, Some(Refused::Write))
        }
    }
}

fn report_of(core: Core, status: u8, refused: Option<Refused>) -> Report
    ensures tells { TellsRun core.cell core.history result }
    ensures status { result.status ≡ status }
    ensures refused { result.refused ≡ refused }
{
    let (history, fates) = core.into_report();
    Report {
        status,
        history,
        fates,
        refused,
    }
}

/// A cell is within its limits.
pub(crate) fn within_limits(cell: &Cell)
    ensures { IsCell cell.now }
{
    prove!(cell.steps() > 0);
}
