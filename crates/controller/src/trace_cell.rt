//! A round-robin run that is traced.

ghost use Rattle.std.specs.Prelude.{◌≡◌, List, All, length, map};
ghost use Rattle.std.specs.List.{AllByRecursion};
ghost use Rattle.typed_trees.specs.Plain.{TypedTree};
ghost use Rattle.typed_trees.specs.Views.{view_tree};
ghost use Rattle.stack_code.specs.Compiled.{compiled};
ghost use Rattle.task_code.specs.Asking.{CodeAsks};
ghost use Rattle.task_code.specs.Live.{CodeFits};
ghost use Rattle.code_laws.specs.Checked.{IsChecked};
ghost use Rattle.cell_meaning.specs.Asking.{with_inputs};
ghost use Rattle.cell_meaning.specs.Histories.{IsLegal};
ghost use Rattle.cell_crew.specs.Courses.{SuitTasks};
ghost use Rattle.cell_crew.specs.Crew.{AskAsPrograms};
ghost use Rattle.task_steps.specs.Phases as phases;
ghost use Rattle.controller.specs.Answered.{AnswersTraced, TracesOrMemory};
ghost use Rattle.cell_loading.specs.Loaded.{made_of, AreShort};
ghost use Rattle.state_lines.specs.Sources.{view_modules};
ghost use Rattle.controller.specs.Ready.{HasScript};
ghost use Rattle.sink_lines.specs.Printed.{sunk};
ghost use Rattle.controller.specs.Runs.{IsRunByTurns, TellsRun};
ghost use Rattle.controller.specs.RunsAsked.{IsRunAsking};

use crate::report::{Report, refuse};
use crate::run::{report_printed, within_limits};
use accepted_cells::{
    accepted_code_suits_its_task, accepted_tasks_ask_as_their_code, accepted_tasks_ask_well,
};
use cell_core::Core;
use cell_crew::ask_first;
use cell_loading::{CheckedCell, ModuleTexts, Refused};
use cell_meaning::Askers;
use cell_runs::{crew_of, run_tasks, status_of_run};
use outside::Sink;
use rapid_model::Cell;
use state_lines::print_trace;
use std::alloc::Global;
use std::marker::Brand;
use task_machine::Machine;
use typed_trees::Tree;

/// Runs the tasks of an accepted cell round-robin, prints each event with its place in these modules, and reports the
/// run. All memory is taken before the first event.
pub(crate) fn trace_cell<O: Sink, E: Sink>(
    alloc: Global,
    accepted: CheckedCell,
    modules: &Option<ModuleTexts>,
    out: &mut O,
    err: &mut E,
) -> Report
    requires script { HasScript (made_of accepted) }
    requires short { AreShort modules.now }
    ensures { TracesOrMemory (IsRunByTurns accepted.cell (map view_tree accepted.trees.items)) accepted.cell (map view_tree accepted.trees.items) (view_modules modules.now) result (sunk O.told O.calls O.faults out.old out.new) (sunk E.told E.calls E.faults err.old err.new) }
{
    accepted_tasks_ask_well();
    accepted_tasks_ask_as_their_code();
    accepted_code_suits_its_task();
    let CheckedCell { cell, trees } = accepted;
    within_limits(&cell);
    trace_tasks::<Brand, O, E>(alloc, cell, trees.as_slice(), modules, out, err)
}

/// The same, given the trees of the cell's tasks.
fn trace_tasks<A: Askers, O: Sink, E: Sink>(
    alloc: Global,
    cell: Cell,
    trees: &[Tree],
    modules: &Option<ModuleTexts>,
    out: &mut O,
    err: &mut E,
) -> Report
    requires one_each { length trees.now ≡ length cell.tasks }
    requires checked { All IsChecked (map view_tree trees.now) }
    requires programs { AskAsPrograms CodeFits CodeAsks A.asks (map compiled (map view_tree trees.now)) }
    requires suit { SuitTasks CodeFits CodeAsks cell (map compiled (map view_tree trees.now)) }
    requires short { AreShort modules.now }
    ensures { TracesOrMemory (IsRunAsking A.asks cell) cell (map view_tree trees.now) (view_modules modules.now) result (sunk O.told O.calls O.faults out.old out.new) (sunk E.told E.calls E.faults err.old err.new) }
{
    let machines = match crew_of(alloc, trees) {
        Ok(machines) => machines,
        Err(_) => return refuse(alloc, err, "", Refused::Memory),
    };
    match run_tasks::<A>(alloc, cell, trees) {
        Ok(core) => report_traced::<A, O, E>(core, machines, modules, out, err),
        Err(_) => refuse(alloc, err, "", Refused::Memory),
    }
}

/// Prints each event of a run with its place, and reports the run. The machines have asked nothing yet.
fn report_traced<A: Askers, O: Sink, E: Sink>(
    core: Core,
    machines: Vec<Machine>,
    modules: &Option<ModuleTexts>,
    out: &mut O,
    err: &mut E,
) -> Report
    requires one_each { length machines.items ≡ length core.cell.tasks }
    requires fresh { AllByRecursion (λ m. m.phase ≡ phases.New) machines.items }
    requires programs { AskAsPrograms CodeFits CodeAsks A.asks (map (λ m. m.code) machines.items) }
    requires suit { SuitTasks CodeFits CodeAsks core.cell (map (λ m. m.code) machines.items) }
    requires legal { IsLegal (with_inputs A.asks core.cell) core.cell core.history }
    requires short { AreShort modules.now }
    ensures { (trees : List TypedTree) → map (λ m. m.code) machines.items ≡ map compiled trees → All IsChecked trees → AnswersTraced (TellsRun core.cell core.history) core.cell trees (view_modules modules.now) result (sunk O.told O.calls O.faults out.old out.new) (sunk E.told E.calls E.faults err.old err.new) }
{
    let mut machines = machines;
    let crew = machines.as_mut_slice();
    ask_first(crew);
    let status = status_of_run(&core);
    let printed = print_trace::<A, O>(out, &core, crew, modules);
    report_printed(core, status, printed, err)
}
