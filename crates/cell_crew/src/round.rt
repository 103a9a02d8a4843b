ghost use Rattle.std.specs.Prelude.{◌≡◌, ◌<◌, ◌≤◌, ◌+◌, [], length, map, IsTrue, IsFalse};
ghost use Rattle.cell_meaning.specs.Asking.{with_inputs};
ghost use Rattle.cell_meaning.specs.Histories.{IsLegal, IsWhole};
ghost use Rattle.cell_meaning.specs.Premises.{AsksWhatItMay};
ghost use Rattle.cell_meaning.specs.Turns.{TakeTurns, IsRound, IsByTurns};
ghost use Rattle.cell_crew.specs.Courses.{SuitTasks};
ghost use Rattle.cell_crew.specs.Crew.{AskAsPrograms, IsCrew, Stand};
ghost use Rattle.cell_crew.specs.UnderWay.{AreUnderWay};

use crate::TaskMachine;
use crate::asking::ask_first;
use crate::ran::Ran;
use crate::script::feed;
use crate::turn::turn;
use cell_core::Core;
use cell_meaning::Askers;

/// Lets the tasks take turns in script order, and then the input script, one event a turn, until a whole round adds
/// none (`IsByTurns` of cell_meaning). An actor that has ended, is not enabled, or has no steps left adds none. The
/// history is one that the tasks and the input script can make together, and nothing can follow it. The core's history
/// is empty at first, and there is a machine for each task, which has asked nothing; the task asks what the machine's
/// program asks, which suits it. Allocates nothing.
pub fn run_round<A: Askers, M: TaskMachine>(mut core: Core, mut machines: Vec<M>) -> Ran<M>
    requires no_events { core.history ≡ [] }
    requires crew { IsCrew M.is_fresh machines.items core.cell }
    requires programs { AskAsPrograms M.fits M.asks A.asks (map M.program machines.items) }
    requires suit { SuitTasks M.fits M.asks core.cell (map M.program machines.items) }
    ensures cell { result.core.cell ≡ core.cell }
    ensures programs { map M.program result.machines.items ≡ map M.program machines.items }
    ensures by_turns { IsByTurns (with_inputs A.asks core.cell) core.cell result.core.history }
    ensures legal { IsLegal (with_inputs A.asks core.cell) core.cell result.core.history }
    ensures whole { IsWhole (with_inputs A.asks core.cell) core.cell result.core.history }
    ensures stand { Stand M.stands_for result.machines.items result.core.history }
{
    run::<A, M>(&mut core, machines.as_mut_slice());
    Ran { core, machines }
}

// Runs rounds until one adds no event.
fn run<A: Askers, M: TaskMachine>(core: &mut Core, machines: &mut [M])
    requires no_events { core.old.history ≡ [] }
    requires crew { IsCrew M.is_fresh machines.old core.old.cell }
    requires programs { AskAsPrograms M.fits M.asks A.asks (map M.program machines.old) }
    requires suit { SuitTasks M.fits M.asks core.old.cell (map M.program machines.old) }
    requires may { AsksWhatItMay (with_inputs A.asks core.old.cell) core.old.cell }
    ensures cell { core.new.cell ≡ core.old.cell }
    ensures programs { map M.program machines.new ≡ map M.program machines.old }
    ensures by_turns { IsByTurns (with_inputs A.asks core.old.cell) core.old.cell core.new.history }
    ensures legal { IsLegal (with_inputs A.asks core.old.cell) core.old.cell core.new.history }
    ensures stand { Stand M.stands_for machines.new core.new.history }
{
    ask_first(machines);
    'rounds: while round::<A, M>(core, machines) {}
}

// A turn of each task in order, then of the input script. Returns whether any added an event.
fn round<A: Askers, M: TaskMachine>(core: &mut Core, machines: &mut [M]) -> bool
    requires one_each { length machines.old ≡ length core.old.cell.tasks }
    requires programs { AskAsPrograms M.fits M.asks A.asks (map M.program machines.old) }
    requires suit { SuitTasks M.fits M.asks core.old.cell (map M.program machines.old) }
    requires may { AsksWhatItMay (with_inputs A.asks core.old.cell) core.old.cell }
    requires legal { IsLegal (with_inputs A.asks core.old.cell) core.old.cell core.old.history }
    requires under_way { AreUnderWay M.stands_for M.due machines.old core.old.history }
    ensures cell { core.new.cell ≡ core.old.cell }
    ensures programs { map M.program machines.new ≡ map M.program machines.old }
    ensures legal { IsLegal (with_inputs A.asks core.old.cell) core.old.cell core.new.history }
    ensures under_way { AreUnderWay M.stands_for M.due machines.new core.new.history }
    ensures round { IsRound (with_inputs A.asks core.old.cell) core.old.cell core.old.history core.new.history }
    ensures longer { IsTrue result → length core.old.history < length core.new.history }
    ensures same { IsFalse result → core.new.history ≡ core.old.history }
    ensures few { length core.new.history ≤ core.old.cell.steps + length core.old.cell.tasks + length core.old.cell.inputs }
{
    let before = core.len();
    turns::<A, M>(core, machines);
    feed::<A>(core);
    core.len() > before
}

// A turn of each task in order.
fn turns<A: Askers, M: TaskMachine>(core: &mut Core, machines: &mut [M])
    requires one_each { length machines.old ≡ length core.old.cell.tasks }
    requires programs { AskAsPrograms M.fits M.asks A.asks (map M.program machines.old) }
    requires suit { SuitTasks M.fits M.asks core.old.cell (map M.program machines.old) }
    requires may { AsksWhatItMay (with_inputs A.asks core.old.cell) core.old.cell }
    requires legal { IsLegal (with_inputs A.asks core.old.cell) core.old.cell core.old.history }
    requires under_way { AreUnderWay M.stands_for M.due machines.old core.old.history }
    ensures cell { core.new.cell ≡ core.old.cell }
    ensures programs { map M.program machines.new ≡ map M.program machines.old }
    ensures legal { IsLegal (with_inputs A.asks core.old.cell) core.old.cell core.new.history }
    ensures under_way { AreUnderWay M.stands_for M.due machines.new core.new.history }
    ensures turns { TakeTurns (with_inputs A.asks core.old.cell) core.old.cell 0 (length core.old.cell.tasks) core.old.history core.new.history }
{
    for task in 0..core.task_count() {
        turn::<A, M>(core, &mut machines[task as usize], task);
    }
}
