//! The states of tasks.

ghost use Rattle.std.specs.Prelude.{◌≡◌, ◌<◌, ℕ, IfOk, Some, length, map, slice_get};
ghost use Rattle.rapid_model.specs.Own.{answers_of, part_of};
ghost use Rattle.stack_code.specs.CodeData.{CodeData};
ghost use Rattle.task_code.specs.Asking.{CodeAsks};
ghost use Rattle.task_code.specs.Live.{CodeFits};
ghost use Rattle.cell_meaning.specs.Asking.{with_inputs};
ghost use Rattle.cell_meaning.specs.Histories.{IsLegal};
ghost use Rattle.cell_crew.specs.Courses.{SuitTasks, SuitsTask};
ghost use Rattle.cell_crew.specs.Crew.{AskAsPrograms, AsksAsProgram};
ghost use Rattle.cell_crew.specs.UnderWay.{AreUnderWay, UnderWay};
ghost use Rattle.task_machine.specs.MachineData.{request_of};
ghost use Rattle.task_machine.specs.Standing.{StandsFor};
ghost use Rattle.cell_state.specs.Codes.{IsReachedBy};
ghost use Rattle.cell_state.specs.Due.{IsDueNext};
ghost use Rattle.cell_state.specs.States.{TaskStateData};

use crate::data::values_of;
use crate::living::keep_live;
use crate::task_state::TaskState;
use cell_core::Core;
use cell_meaning::Askers;
use rapid_model::Request;
use std::alloc::{AllocError, Global};
use task_machine::Machine;

/// The state of each task after the core's history, in script order. The machines have asked what their tasks ask next.
pub(crate) fn task_states<A: Askers>(
    alloc: Global,
    core: &Core,
    machines: &[Machine],
) -> Result<Vec<TaskState>, AllocError>
    requires one_each { length machines.now ≡ length core.now.cell.tasks }
    requires programs { AskAsPrograms CodeFits CodeAsks A.asks (map (λ m. m.code) machines.now) }
    requires suit { SuitTasks CodeFits CodeAsks core.now.cell (map (λ m. m.code) machines.now) }
    requires legal { IsLegal (with_inputs A.asks core.now.cell) core.now.cell core.now.history }
    requires under_way { AreUnderWay StandsFor request_of machines.now core.now.history }
    ensures one_each { IfOk result (λ states. length states.items ≡ length machines.now) }
    ensures reached { IfOk result (λ states. (task : ℕ) (code : CodeData) (here : TaskStateData) → slice_get (map (λ m. m.code) machines.now) task ≡ Some code → slice_get states.items task ≡ Some here → IsReachedBy code (answers_of task core.now.history) here) }
{
    let mut states = Vec::new(alloc);
    for task in 0..core.task_count() {
        let state = task_state::<A>(alloc, core, task, &machines[task as usize])?;
        states.push(state)?;
    }
    Ok(states)
}

/// The state of a task, given its machine.
fn task_state<A: Askers>(
    alloc: Global,
    core: &Core,
    task: u32,
    machine: &Machine,
) -> Result<TaskState, AllocError>
    requires task { task < length core.now.cell.tasks }
    requires program { AsksAsProgram CodeFits CodeAsks A.asks task machine.now.code }
    requires suits { SuitsTask CodeFits CodeAsks core.now.cell task machine.now.code }
    requires legal { IsLegal (with_inputs A.asks core.now.cell) core.now.cell core.now.history }
    requires under_way { UnderWay StandsFor request_of machine.now (part_of task core.now.history) }
    ensures { IfOk result (IsReachedBy machine.now.code (answers_of task core.now.history)) }
{
    keep_live(machine.code());
    let values = values_of(alloc, machine)?;
    Ok(TaskState {
        place: machine.place(),
        next: next_request(core, task, machine),
        values,
    })
}

/// What a task asks next, none if it has ended.
fn next_request(core: &Core, task: u32, machine: &Machine) -> Option<Request>
    requires task { task < length core.now.cell.tasks }
    requires under_way { UnderWay StandsFor request_of machine.now (part_of task core.now.history) }
    ensures { IsDueNext machine.now (part_of task core.now.history) result }
{
    if core.ended(task) {
        None
    } else {
        Some(machine.last().copy())
    }
}
