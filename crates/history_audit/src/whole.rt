//! Whether an event can follow a history.

ghost use Rattle.std.specs.Prelude.{◌≡◌, ◌<◌, ◌↔◌, ◌&&◌, false, length, map, IsTrue, IsFalse};
ghost use Rattle.rapid_model.specs.Own.{has_ended, part_of};
ghost use Rattle.rapid_model.specs.declared.event.Event.{Event};
ghost use Rattle.cell_meaning.specs.Answers.{is_enabled};
ghost use Rattle.cell_meaning.specs.Asking.{with_inputs};
ghost use Rattle.cell_meaning.specs.Counted.{can_be_served};
ghost use Rattle.cell_meaning.specs.Histories.{Follows, IsLegal, IsWhole};
ghost use Rattle.cell_meaning.specs.MayAsk.{may_ask};
ghost use Rattle.cell_meaning.specs.Premises.{AsksWhatItMay};
ghost use Rattle.cell_crew.specs.Courses.{SuitTasks, SuitsTask};
ghost use Rattle.cell_crew.specs.Crew.{AskAsPrograms, AsksAsProgram};
ghost use Rattle.cell_crew.specs.UnderWay.{AreUnderWay, UnderWay};

use cell_core::Core;
use cell_crew::TaskMachine;
use cell_meaning::Askers;
use rapid_model::Request;

/// Whether no event can follow the core's history, after which the machines have asked what their tasks ask.
pub(crate) fn is_whole<A: Askers, M: TaskMachine>(core: &Core, machines: &[M]) -> bool
    requires one_each { length machines.now ≡ length core.now.cell.tasks }
    requires programs { AskAsPrograms M.fits M.asks A.asks (map M.program machines.now) }
    requires suit { SuitTasks M.fits M.asks core.now.cell (map M.program machines.now) }
    requires may { AsksWhatItMay (with_inputs A.asks core.now.cell) core.now.cell }
    requires legal { IsLegal (with_inputs A.asks core.now.cell) core.now.cell core.now.history }
    requires under_way { AreUnderWay M.stands_for M.due machines.now core.now.history }
    ensures { IsTrue result ↔ IsWhole (with_inputs A.asks core.now.cell) core.now.cell core.now.history }
{
    if core.can_feed() {
        return false;
    }
    for task in 0..core.task_count() {
        if can_step::<A, M>(core, &machines[task as usize], task) {
            return false;
        }
    }
    true
}

/// Whether an event of a task can follow.
fn can_step<A: Askers, M: TaskMachine>(core: &Core, machine: &M, task: u32) -> bool
    requires task { task < length core.now.cell.tasks }
    requires program { AsksAsProgram M.fits M.asks A.asks task (M.program machine.now) }
    requires suits { SuitsTask M.fits M.asks core.now.cell task (M.program machine.now) }
    requires may { AsksWhatItMay (with_inputs A.asks core.now.cell) core.now.cell }
    requires legal { IsLegal (with_inputs A.asks core.now.cell) core.now.cell core.now.history }
    requires under_way { UnderWay M.stands_for M.due machine.now (part_of task core.now.history) }
    ensures goes { IsTrue result → ¬ IsWhole (with_inputs A.asks core.now.cell) core.now.cell core.now.history }
    ensures rests { IsFalse result → (e : Event) → e.actor ≡ task → ¬ Follows (with_inputs A.asks core.now.cell) core.now.cell core.now.history e }
{
    if core.ended(task) {
        return false;
    }
    is_served(core, task, machine.last())
}

/// Whether a request that a task may make is served at once.
fn is_served(core: &Core, task: u32, request: &Request) -> bool
    requires task { task < length core.now.cell.tasks }
    requires may { IsTrue (may_ask core.now.cell task (part_of task core.now.history) request.now) }
    ensures { result ≡ (can_be_served core.now.cell core.now.history request.now && is_enabled core.now.cell core.now.history task request.now) }
{
    match request {
        // An End is not counted.
        Request::End { .. } => true,
        Request::Rise => !core.spent() && core.can_rise(task),
        _ => !core.spent(),
    }
}
