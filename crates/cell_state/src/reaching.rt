//! The state of a whole cell.

ghost use Rattle.std.specs.Prelude.{◌≡◌, [], IfOk, map};
ghost use Rattle.stack_code.specs.CodeData.{CodeData};
ghost use Rattle.task_code.specs.Asking.{CodeAsks};
ghost use Rattle.task_code.specs.Live.{CodeFits};
ghost use Rattle.cell_meaning.specs.Asking.{with_inputs};
ghost use Rattle.cell_meaning.specs.Histories.{IsLegal};
ghost use Rattle.cell_crew.specs.Courses.{SuitTasks};
ghost use Rattle.cell_crew.specs.Crew.{AskAsPrograms, IsCrew};
ghost use Rattle.task_steps.specs.Phases as phases;
ghost use Rattle.cell_state.specs.Codes.{IsStateByCodes};

use crate::persistents::persistents;
use crate::state::CellState;
use crate::tasks::task_states;
use cell_core::Core;
use cell_crew::ask_first;
use cell_meaning::Askers;
use history_audit::first_wrong;
use rapid_model::Event;
use std::alloc::{AllocError, Global};
use task_machine::Machine;

/// The state of the core's cell after these events, which its tasks and its input script can make. The core's history is
/// empty at first, and there is a machine for each task, which has asked nothing; the task asks what the machine's code
/// asks, which suits it. Afterwards the core's history is these events, and the machines have asked what follows them.
/// Fails only if an allocation fails.
pub fn state_of<A: Askers>(
    alloc: Global,
    core: &mut Core,
    machines: &mut [Machine],
    events: &[Event],
) -> Result<CellState, AllocError>
    requires no_events { core.old.history ≡ [] }
    requires crew { IsCrew (λ m. m.phase ≡ phases.New) machines.old core.old.cell }
    requires programs { AskAsPrograms CodeFits CodeAsks A.asks (map (λ m. m.code) machines.old) }
    requires suit { SuitTasks CodeFits CodeAsks core.old.cell (map (λ m. m.code) machines.old) }
    requires legal { IsLegal (with_inputs A.asks core.old.cell) core.old.cell events.now }
    ensures cell { core.new.cell ≡ core.old.cell }
    ensures history { core.new.history ≡ events.now }
    ensures state { IfOk result (IsStateByCodes core.old.cell (map (λ m. m.code) machines.old) events.now) }
{
    ask_first(machines);
    // No event of a legal history is wrong.
    if let Some((_at, _wrong)) = first_wrong::<A, Machine>(core, machines, events) {
        unreachable!();
    }
    let tasks = task_states::<A>(alloc, core, machines)?;
    let pers = persistents(alloc, core)?;
    Ok(CellState { tasks, pers })
}
