//! A round-robin run that is measured.

ghost use Rattle.std.specs.Prelude.{map};
ghost use Rattle.typed_trees.specs.Views.{view_tree};
ghost use Rattle.rapid_model.specs.CellData.{IsCell};
ghost use Rattle.cell_meaning.specs.Premises.{AllAnswered};
ghost use Rattle.controller.specs.Answered.{AnswersMeasured, MeasuresOrMemory};
ghost use Rattle.cell_loading.specs.Loaded.{made_of};
ghost use Rattle.controller.specs.Ready.{HasScript};
ghost use Rattle.sink_lines.specs.Printed.{sunk};
ghost use Rattle.controller.specs.Runs.{IsRunByTurns, TellsRun};

use crate::report::{Report, refuse};
use crate::run::{report_printed, within_limits};
use accepted_cells::{
    accepted_code_suits_its_task, accepted_tasks_ask_as_their_code, accepted_tasks_ask_well,
};
use cell_core::Core;
use cell_loading::{CheckedCell, Refused};
use cell_runs::{run_tasks, status_of_run};
use clearance_lines::print_clearances;
use outside::Sink;
use std::alloc::Global;
use std::marker::Brand;

/// Runs the tasks of an accepted cell round-robin, prints how near each arm came to its zones of the cell, and reports
/// the run. All memory is taken before the first event.
pub(crate) fn measure_cell<O: Sink, E: Sink>(
    alloc: Global,
    accepted: CheckedCell,
    out: &mut O,
    err: &mut E,
) -> Report
    requires { HasScript (made_of accepted) }
    ensures { MeasuresOrMemory (IsRunByTurns accepted.cell (map view_tree accepted.trees.items)) accepted.cell result (sunk O.told O.calls O.faults out.old out.new) (sunk E.told E.calls E.faults err.old err.new) }
{
    accepted_tasks_ask_well();
    accepted_tasks_ask_as_their_code();
    accepted_code_suits_its_task();
    let CheckedCell { cell, trees } = accepted;
    within_limits(&cell);
    match run_tasks::<Brand>(alloc, cell, trees.as_slice()) {
        Ok(core) => report_measured(core, out, err),
        Err(_) => refuse(alloc, err, "", Refused::Memory),
    }
}

/// Prints how near each arm came to its zones, and reports the run.
fn report_measured<O: Sink, E: Sink>(core: Core, out: &mut O, err: &mut E) -> Report
    requires limits { IsCell core.cell }
    requires answered { AllAnswered core.cell core.history }
    ensures { AnswersMeasured (TellsRun core.cell core.history) core.cell result (sunk O.told O.calls O.faults out.old out.new) (sunk E.told E.calls E.faults err.old err.new) }
{
    let status = status_of_run(&core);
    let printed = print_clearances(out, &core);
    report_printed(core, status, printed, err)
}
