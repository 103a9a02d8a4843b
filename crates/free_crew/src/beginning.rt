//! A crew before its run.
ghost use Rattle.std.specs.Prelude.{◌≡◌, ◌+◌, ◌≤◌, [], ◌∷◌, ◌++◌, length, map, replicate, vec_capacity};
ghost use Rattle.std.specs.List.{AllByRecursion};
ghost use Rattle.cell_crew.specs.Courses.{SuitTasks};
ghost use Rattle.cell_crew.specs.Crew.{IsCrew};
ghost use Rattle.cell_crew.specs.UnderWay.{AreUnderWay};
ghost use Rattle.cell_gate.specs.Calls.{fresh_passes};
ghost use Rattle.free_crew.specs.Crews.{IsEven};
ghost use Rattle.free_crew.specs.Runs.{MayRun};
ghost use Rattle.free_crew.specs.declared.standing.Standing.TheVariants as standings;

use crate::crew::Crew;
use crate::standing::Standing;
use arrayvec::ArrayVec;
use cell_crew::{TaskMachine, ask_first};
use cell_gate::{Gate, Pass};
use rapid_limits::MOST_TASKS;

/// The crew of a gate, from its passes and a machine for each task. Each machine has asked its first request.
pub(crate) fn begin<M: TaskMachine + Drop>(
    gate: &Gate,
    machines: Vec<M>,
    passes: Vec<Pass>,
) -> Crew<M>
    requires passes { passes.items ≡ fresh_passes gate.now 0 (length gate.now.cell.tasks + 1) }
    requires crew { IsCrew M.is_fresh machines.items gate.now.cell }
    requires suit { SuitTasks M.fits M.asks gate.now.cell (map M.program machines.items) }
    ensures may { MayRun M.program M.fits M.asks M.stands_for M.due gate.now result }
    ensures room { length result.passes.items + 1 ≤ vec_capacity result.passes }
    ensures machines_room { vec_capacity result.machines ≡ vec_capacity machines }
    ensures programs { map M.program result.machines.items ≡ map M.program machines.items }
{
    // A gate's tasks are few enough.
    prove!(gate.task_count() as usize <= MOST_TASKS);
    new_crew(machines, passes)
}

/// The crew of these machines, which have asked nothing, and these passes, the last of which is the input script's.
fn new_crew<M: TaskMachine + Drop>(machines: Vec<M>, mut passes: Vec<Pass>) -> Crew<M>
    requires fresh { AllByRecursion M.is_fresh machines.items }
    requires few { length machines.items ≤ MOST_TASKS }
    requires passes { length passes.items ≡ length machines.items + 1 }
    ensures even { IsEven result }
    ensures passes { passes.items ≡ result.passes.items ++ result.script ∷ [] }
    ensures room { length result.passes.items + 1 ≤ vec_capacity result.passes }
    ensures machines_room { vec_capacity result.machines ≡ vec_capacity machines }
    ensures going { result.standings.items ≡ replicate (length machines.items) standings.Going }
    ensures programs { map M.program result.machines.items ≡ map M.program machines.items }
    ensures under_way { AreUnderWay M.stands_for M.due result.machines.items [] }
{
    let Some(script) = passes.pop() else {
        unreachable!();
    };
    let standings = all_going(machines.len());
    let machines = all_asked(machines);
    Crew {
        machines,
        passes,
        standings,
        script,
    }
}

/// The standings of this many tasks whose first requests are due.
fn all_going(tasks: usize) -> ArrayVec<Standing, MOST_TASKS>
    requires { tasks ≤ MOST_TASKS }
    ensures { result.items ≡ replicate tasks standings.Going }
{
    let mut standings = ArrayVec::new();
    for _task in 0..tasks {
        standings.push(Standing::Going);
    }
    standings
}

/// The machines, once each has asked its first request.
fn all_asked<M: TaskMachine + Drop>(mut machines: Vec<M>) -> Vec<M>
    requires { AllByRecursion M.is_fresh machines.items }
    ensures len { length result.items ≡ length machines.items }
    ensures room { vec_capacity result ≡ vec_capacity machines }
    ensures programs { map M.program result.items ≡ map M.program machines.items }
    ensures under_way { AreUnderWay M.stands_for M.due result.items [] }
{
    ask_first(machines.as_mut_slice());
    machines
}
