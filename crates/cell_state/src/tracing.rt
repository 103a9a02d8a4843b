//! The places at which the events of a history are asked.

ghost use Rattle.std.specs.Prelude.{◌≡◌, ◌<◌, ◌+◌, ◌∷◌, ◌++◌, [], false, List, None, Some, is_some, length, map, slice_get, take};
ghost use Rattle.rapid_model.specs.Own.{fate_of, has_ended};
ghost use Rattle.rapid_model.specs.declared.answer.Answer.{Answer};
ghost use Rattle.rapid_model.specs.declared.event.Event.{Event};
ghost use Rattle.task_code.specs.Asking.{CodeAsks};
ghost use Rattle.task_code.specs.Live.{CodeFits};
ghost use Rattle.cell_meaning.specs.Asking.{with_inputs};
ghost use Rattle.cell_meaning.specs.Histories.{IsLegal};
ghost use Rattle.cell_crew.specs.Courses.{SuitTasks};
ghost use Rattle.cell_crew.specs.Crew.{AskAsPrograms};
ghost use Rattle.cell_crew.specs.UnderWay.{AreUnderWay, UnderWay};
ghost use Rattle.task_machine.specs.MachineData.{request_of};
ghost use Rattle.task_machine.specs.Standing.{StandsFor};
ghost use Rattle.cell_state.specs.Traces.{IsAskedAt};

use crate::traced::Traced;
use cell_core::Core;
use cell_crew::TaskMachine;
use cell_meaning::Askers;
use rapid_model::{At, Event, Request};
use task_machine::Machine;

/// Event `k` of the core's history, from 0, and the place at which it was asked. Before, the machines have asked what
/// follows the events before it; afterwards, what follows it. Takes no memory.
pub fn trace_event<A: Askers>(core: &Core, machines: &mut [Machine], k: u32) -> Traced
    requires within { k < length core.now.history }
    requires one_each { length machines.old ≡ length core.now.cell.tasks }
    requires programs { AskAsPrograms CodeFits CodeAsks A.asks (map (λ m. m.code) machines.old) }
    requires suit { SuitTasks CodeFits CodeAsks core.now.cell (map (λ m. m.code) machines.old) }
    requires legal { IsLegal (with_inputs A.asks core.now.cell) core.now.cell core.now.history }
    requires under_way { AreUnderWay StandsFor request_of machines.old (take k core.now.history) }
    ensures programs { map (λ m. m.code) machines.new ≡ map (λ m. m.code) machines.old }
    ensures event { slice_get core.now.history k ≡ Some result.event }
    ensures place { IsAskedAt (map (λ m. m.code) machines.old) (take k core.now.history) result.event result.place }
    ensures under_way { AreUnderWay StandsFor request_of machines.new (take (k + 1) core.now.history) }
{
    let event = core.event(k);
    let actor = event.actor;
    if actor < core.task_count() {
        let place = pass_event(&mut machines[actor as usize], &event);
        Traced { event, place }
    } else {
        Traced { event, place: None }
    }
}

/// The place at which a task asks its next event, given its machine, which goes on with the answer.
fn pass_event(machine: &mut Machine, event: &Event) -> Option<At>
    requires due { request_of machine.old ≡ Some event.now.request }
    requires fitting { (answers : List Answer) × StandsFor machine.old answers × CodeFits machine.old.code (answers ++ event.now.answer ∷ []) }
    ensures code { machine.new.code ≡ machine.old.code }
    ensures place { result ≡ machine.old.data'.place }
    ensures under_way { (mine : List Event) → has_ended mine ≡ false → UnderWay StandsFor request_of machine.old mine → UnderWay StandsFor request_of machine.new (mine ++ event.now ∷ []) }
{
    let place = machine.place();
    hand_on(machine, event);
    place
}

/// Hands the answer of a task's next event to the task's machine.
fn hand_on<M: TaskMachine>(machine: &mut M, event: &Event)
    requires due { M.due machine.old ≡ Some event.now.request }
    requires fitting { (answers : List Answer) × M.stands_for machine.old answers × M.fits (M.program machine.old) (answers ++ event.now.answer ∷ []) }
    ensures program { M.program machine.new ≡ M.program machine.old }
    ensures under_way { (mine : List Event) → has_ended mine ≡ false → UnderWay M.stands_for M.due machine.old mine → UnderWay M.stands_for M.due machine.new (mine ++ event.now ∷ []) }
{
    // A machine gets no answer to its End.
    if !is_end(&event.request) {
        machine.next(event.answer.copy());
    }
}

/// Whether a request ends its task.
fn is_end(request: &Request) -> bool
    ensures { result ≡ is_some (fate_of request.now) }
{
    matches!(request, Request::End { .. })
}
