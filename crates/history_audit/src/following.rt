//! One event, done again by its actor and the core.

ghost use Rattle.std.specs.Prelude.{◌≡◌, ◌<◌, ◌≤◌, None, length, map};
ghost use Rattle.rapid_model.specs.Own.{part_of};
ghost use Rattle.cell_meaning.specs.Asking.{with_inputs};
ghost use Rattle.cell_meaning.specs.Histories.{IsLegal};
ghost use Rattle.cell_meaning.specs.Premises.{AsksWhatItMay};
ghost use Rattle.cell_crew.specs.Courses.{SuitTasks, SuitsTask};
ghost use Rattle.cell_crew.specs.Crew.{AskAsPrograms, AsksAsProgram};
ghost use Rattle.cell_crew.specs.UnderWay.{AreUnderWay, UnderWay};
ghost use Rattle.history_audit.specs.Followed.{Followed};

use crate::serving::serve;
use crate::wrong::Wrong;
use cell_core::Core;
use cell_crew::TaskMachine;
use cell_meaning::Askers;
use rapid_model::{Event, Request};

/// Adds the event to the core's history and hands its answer to its task's machine, or returns what is wrong with it.
/// Core and machines are of no further use after a wrong event.
pub(crate) fn follow<A: Askers, M: TaskMachine>(
    core: &mut Core,
    machines: &mut [M],
    event: &Event,
) -> Option<Wrong>
    requires one_each { length machines.old ≡ length core.old.cell.tasks }
    requires actor { event.now.actor ≤ length core.old.cell.tasks }
    requires programs { AskAsPrograms M.fits M.asks A.asks (map M.program machines.old) }
    requires suit { SuitTasks M.fits M.asks core.old.cell (map M.program machines.old) }
    requires may { AsksWhatItMay (with_inputs A.asks core.old.cell) core.old.cell }
    requires legal { IsLegal (with_inputs A.asks core.old.cell) core.old.cell core.old.history }
    requires under_way { AreUnderWay M.stands_for M.due machines.old core.old.history }
    ensures cell { core.new.cell ≡ core.old.cell }
    ensures programs { map M.program machines.new ≡ map M.program machines.old }
    ensures followed { Followed (with_inputs A.asks core.old.cell) core.old.cell core.old.history event.now core.new.history result }
    ensures under_way { result ≡ None → AreUnderWay M.stands_for M.due machines.new core.new.history }
{
    let actor = event.actor;
    if actor < core.task_count() {
        follow_task::<A, M>(core, &mut machines[actor as usize], event)
    } else {
        follow_script::<A>(core, event)
    }
}

/// The same for an event of a task, with its machine.
fn follow_task<A: Askers, M: TaskMachine>(
    core: &mut Core,
    machine: &mut M,
    event: &Event,
) -> Option<Wrong>
    requires task { event.now.actor < length core.old.cell.tasks }
    requires program { AsksAsProgram M.fits M.asks A.asks event.now.actor (M.program machine.old) }
    requires suits { SuitsTask M.fits M.asks core.old.cell event.now.actor (M.program machine.old) }
    requires may { AsksWhatItMay (with_inputs A.asks core.old.cell) core.old.cell }
    requires legal { IsLegal (with_inputs A.asks core.old.cell) core.old.cell core.old.history }
    requires under_way { UnderWay M.stands_for M.due machine.old (part_of event.now.actor core.old.history) }
    ensures cell { core.new.cell ≡ core.old.cell }
    ensures program { M.program machine.new ≡ M.program machine.old }
    ensures followed { Followed (with_inputs A.asks core.old.cell) core.old.cell core.old.history event.now core.new.history result }
    ensures under_way { result ≡ None → UnderWay M.stands_for M.due machine.new (part_of event.now.actor core.new.history) }
{
    let task = event.actor;
    if core.ended(task) {
        return Some(Wrong::Ended);
    }
    if let Some(wrong) = serve::<A>(core, event, machine.last()) {
        return Some(wrong);
    }
    // A machine gets no answer to its End.
    if core.ended(task) {
        return None;
    }
    machine.next(event.answer.copy());
    None
}

/// The same for an event of the input script.
fn follow_script<A: Askers>(core: &mut Core, event: &Event) -> Option<Wrong>
    requires script { event.now.actor ≡ length core.old.cell.tasks }
    requires may { AsksWhatItMay (with_inputs A.asks core.old.cell) core.old.cell }
    requires legal { IsLegal (with_inputs A.asks core.old.cell) core.old.cell core.old.history }
    ensures cell { core.new.cell ≡ core.old.cell }
    ensures followed { Followed (with_inputs A.asks core.old.cell) core.old.cell core.old.history event.now core.new.history result }
{
    if core.all_inputs_done() {
        return Some(Wrong::Ended);
    }
    let index = core.inputs_done();
    serve::<A>(core, event, &Request::Input { index })
}
