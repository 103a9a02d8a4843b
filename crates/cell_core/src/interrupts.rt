//! Requests to the interrupts of a task (RAPID Instructions: CONNECT, ISignalDI, ISignalDO, IPers, ISleep, IWatch, IDelete,
//! IDisable, IEnable).

ghost use Rattle.std.specs.Prelude.{◌≡◌, ◌≤◌, ◌<◌, All, length, map, IsTrue};
ghost use Rattle.rapid_model.specs.declared.request.Request.TheVariants as requests;
ghost use Rattle.trap_dispatch.specs.Firing.{connected_at};
ghost use Rattle.trap_dispatch.specs.Tasks.{after_changes, connect_answer, look_answer};
ghost use Rattle.trap_dispatch.specs.Traps.{task_at};
ghost use Rattle.cell_meaning.specs.Answers.{known_of, look_of, number_of, order_of};
ghost use Rattle.cell_meaning.specs.Interrupts.{asked_with};
ghost use Rattle.cell_core.specs.Changes.{watched_of};

use crate::change::Change;
use rapid_limits::LONGEST_QUEUE;
use rapid_model::{Answer, Watched};
use trap_dispatch::{ConnectFault, Due, OrderFault, Traps, Unknown};

/// The trap that is to run first, if one is due; otherwise how many changes by others the task has now seen.
pub(crate) fn look(traps: &mut Traps, actor: u32, seen: u32) -> Answer
    requires { actor < length traps.old }
    ensures answer { result ≡ look_of (look_answer (task_at traps.old actor)) seen }
    ensures traps { traps.new ≡ asked_with traps.old actor requests.Look result }
{
    let due = traps.look(actor);
    of_due(due, seen)
}

fn of_due(due: Due, seen: u32) -> Answer
    ensures { result ≡ look_of due seen }
{
    match due {
        Due::None => Answer::Go { seen },
        Due::Trap { number, trap } => Answer::Trap { number, trap },
        Due::Flood => Answer::Flood,
    }
}

/// Connects an interrupt with a trap.
pub(crate) fn connect(traps: &mut Traps, actor: u32, old: u8, trap: u32) -> Answer
    requires { actor < length traps.old }
    ensures answer { result ≡ number_of (connect_answer (task_at traps.old actor) old) }
    ensures traps { traps.new ≡ asked_with traps.old actor (requests.Connect old trap) result }
{
    match traps.connect(actor, old, trap) {
        Ok(number) => Answer::Number(number),
        Err(ConnectFault::Already) => Answer::Already,
        Err(ConnectFault::NoMore) => Answer::NoMore,
    }
}

/// Orders an interrupt.
pub(crate) fn order(traps: &mut Traps, actor: u32, number: u8, on: Watched, single: bool) -> Answer
    requires { actor < length traps.old }
    ensures answer { result ≡ order_of (connected_at (task_at traps.old actor).numbers number) }
    ensures traps { traps.new ≡ asked_with traps.old actor (requests.Order number on single) result }
{
    match traps.order(actor, number, on, single) {
        Ok(()) => Answer::Ok,
        Err(OrderFault::Unknown) => Answer::Unknown,
        Err(OrderFault::Already) => Answer::Already,
    }
}

/// Puts an interrupt to sleep.
pub(crate) fn sleep(traps: &mut Traps, actor: u32, number: u8) -> Answer
    requires { actor < length traps.old }
    ensures answer { result ≡ known_of (connected_at (task_at traps.old actor).numbers number) }
    ensures traps { traps.new ≡ asked_with traps.old actor (requests.Sleep number) result }
{
    match traps.sleep(actor, number) {
        Ok(()) => Answer::Ok,
        Err(Unknown) => Answer::Unknown,
    }
}

/// Wakes an interrupt.
pub(crate) fn watch(traps: &mut Traps, actor: u32, number: u8) -> Answer
    requires { actor < length traps.old }
    ensures answer { result ≡ known_of (connected_at (task_at traps.old actor).numbers number) }
    ensures traps { traps.new ≡ asked_with traps.old actor (requests.Watch number) result }
{
    match traps.watch(actor, number) {
        Ok(()) => Answer::Ok,
        Err(Unknown) => Answer::Unknown,
    }
}

/// Deletes an interrupt.
pub(crate) fn delete(traps: &mut Traps, actor: u32, number: u8) -> Answer
    requires { actor < length traps.old }
    ensures answer { result ≡ known_of (connected_at (task_at traps.old actor).numbers number) }
    ensures traps { traps.new ≡ asked_with traps.old actor (requests.Delete number) result }
{
    match traps.delete(actor, number) {
        Ok(()) => Answer::Ok,
        Err(Unknown) => Answer::Unknown,
    }
}

/// Disables the task's interrupts.
pub(crate) fn disable(traps: &mut Traps, actor: u32) -> Answer
    requires { actor < length traps.old }
    ensures answer { result ≡ Answer.Ok }
    ensures traps { traps.new ≡ asked_with traps.old actor requests.Disable result }
{
    traps.disable(actor);
    Answer::Ok
}

/// Enables the task's interrupts.
pub(crate) fn enable(traps: &mut Traps, actor: u32) -> Answer
    requires { actor < length traps.old }
    ensures answer { result ≡ Answer.Ok }
    ensures traps { traps.new ≡ asked_with traps.old actor requests.Enable result }
{
    traps.enable(actor);
    Answer::Ok
}

/// Ends the trap that the task is in.
pub(crate) fn leave(traps: &mut Traps, actor: u32) -> Answer
    requires task { actor < length traps.old }
    requires in_trap { IsTrue (task_at traps.old actor).in_trap }
    ensures answer { result ≡ Answer.Ok }
    ensures traps { traps.new ≡ asked_with traps.old actor requests.Leave result }
{
    traps.leave(actor);
    Answer::Ok
}

/// Fires the interrupts of all tasks that are ordered on what changed. Each queue has room.
pub(crate) fn fire(traps: &mut Traps, change: &Change)
    requires { All (λ task. length task.queue ≤ LONGEST_QUEUE) traps.old }
    ensures { traps.new ≡ map (after_changes (watched_of change.now)) traps.old }
{
    match change {
        Change::Nothing => {}
        Change::Arrival => {}
        Change::Value(on) => {
            let changes = [*on];
            traps.fired(&changes);
        }
        Change::Outputs(changed) => traps.fired(changed.as_slice()),
    }
}
