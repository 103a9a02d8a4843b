//! The audit of a whole history.

ghost use Rattle.std.specs.Prelude.{◌≡◌, ◌≤◌, [], None, All, IfSome, length, map};
ghost use Rattle.cell_meaning.specs.Asking.{with_inputs};
ghost use Rattle.cell_meaning.specs.Histories.{IsLegal};
ghost use Rattle.cell_meaning.specs.Premises.{AsksWhatItMay};
ghost use Rattle.cell_crew.specs.Courses.{SuitTasks};
ghost use Rattle.cell_crew.specs.Crew.{AskAsPrograms, IsCrew};
ghost use Rattle.cell_crew.specs.UnderWay.{AreUnderWay};
ghost use Rattle.history_audit.specs.Audits.{IsAudit, IsFirstWrong};

use crate::audit_fault::AuditFault;
use crate::fates::wrong_fate;
use crate::following::follow;
use crate::whole::is_whole;
use crate::wrong::Wrong;
use cell_core::Core;
use cell_crew::{TaskMachine, ask_first};
use cell_meaning::Askers;
use rapid_model::{Event, Fate};

/// Whether no event can follow this history, which the cell's tasks and its input script can make: `Ok(true)` if it is
/// whole, `Ok(false)` if it is open. Otherwise the first wrong event, or, if all events are right, the first task whose
/// given fate is wrong. Each event's actor is a task or the input script, and `fates` are those of the first tasks. The
/// core's history is empty at first, and there is a machine for each task, which has asked nothing; the task asks what
/// the machine's program asks, which suits it. Afterwards core and machines are of no further use. Allocates nothing.
pub fn audit<A: Askers, M: TaskMachine>(
    core: &mut Core,
    machines: &mut [M],
    events: &[Event],
    fates: &[Fate],
) -> Result<bool, AuditFault>
    requires no_events { core.old.history ≡ [] }
    requires crew { IsCrew M.is_fresh machines.old core.old.cell }
    requires programs { AskAsPrograms M.fits M.asks A.asks (map M.program machines.old) }
    requires suit { SuitTasks M.fits M.asks core.old.cell (map M.program machines.old) }
    requires actors { All (λ e. e.actor ≤ length core.old.cell.tasks) events.now }
    requires few { length fates.now ≤ length core.old.cell.tasks }
    ensures cell { core.new.cell ≡ core.old.cell }
    ensures audited { IsAudit (with_inputs A.asks core.old.cell) core.old.cell events.now fates.now result }
{
    ask_first(machines);
    if let Some((at, wrong)) = first_wrong::<A, M>(core, machines, events) {
        return Err(AuditFault::Event { at, wrong });
    }
    let whole = is_whole::<A, M>(core, machines);
    match wrong_fate::<A>(core, whole, fates) {
        Some(task) => Err(AuditFault::Fate { task }),
        None => Ok(whole),
    }
}

/// The first wrong event, by its number from 0, and what is wrong with it. If there is none, the core's history is
/// these events, and the machines have asked what follows them. The core's history is empty at first, and the machines
/// have asked their first requests.
pub fn first_wrong<A: Askers, M: TaskMachine>(
    core: &mut Core,
    machines: &mut [M],
    events: &[Event],
) -> Option<(u32, Wrong)>
    requires no_events { core.old.history ≡ [] }
    requires one_each { length machines.old ≡ length core.old.cell.tasks }
    requires programs { AskAsPrograms M.fits M.asks A.asks (map M.program machines.old) }
    requires suit { SuitTasks M.fits M.asks core.old.cell (map M.program machines.old) }
    requires may { AsksWhatItMay (with_inputs A.asks core.old.cell) core.old.cell }
    requires under_way { AreUnderWay M.stands_for M.due machines.old [] }
    requires actors { All (λ e. e.actor ≤ length core.old.cell.tasks) events.now }
    ensures cell { core.new.cell ≡ core.old.cell }
    ensures programs { map M.program machines.new ≡ map M.program machines.old }
    ensures wrong { IfSome result (λ found. IsFirstWrong (with_inputs A.asks core.old.cell) core.old.cell events.now found.0 found.1) }
    ensures history { result ≡ None → core.new.history ≡ events.now }
    ensures legal { result ≡ None → IsLegal (with_inputs A.asks core.old.cell) core.old.cell core.new.history }
    ensures under_way { result ≡ None → AreUnderWay M.stands_for M.due machines.new core.new.history }
{
    for event in events {
        let at = core.len();
        if let Some(wrong) = follow::<A, M>(core, machines, event) {
            return Some((at, wrong));
        }
    }
    None
}
