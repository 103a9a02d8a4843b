ghost use Rattle.std.specs.Prelude.{◌≡◌, ◌+◌, ◌≤◌, length, map, vec_capacity};
ghost use Rattle.cell_crew.specs.Courses.{SuitTasks};
ghost use Rattle.cell_crew.specs.Crew.{AskAsPrograms, IsCrew, Stand};
ghost use Rattle.cell_gate.specs.Calls.{fresh_passes};
ghost use Rattle.cell_meaning.specs.Asking.{with_inputs};
ghost use Rattle.cell_meaning.specs.Histories.{IsLegal, IsWhole};
ghost use Rattle.cell_meaning.specs.Premises.{AsksWhatItMay};
ghost use Rattle.free_crew.specs.Amid.{AreAmid, HaveStopped};
ghost use Rattle.free_crew.specs.Crews.{IsEven, IsFed, jobs_of};
ghost use Rattle.free_crew.specs.Runs.{HasRun, MayRun};

use crate::beginning::begin;
use crate::crew::Crew;
use crate::round::go_round;
use crate::threads::{finish, start};
use cell_crew::{Ran, TaskMachine};
use cell_gate::{Gate, Pass};
use cell_meaning::Askers;
use outside::Pace;
use std::sync::Wait;
use std::sync::atomic::AtomicU64;
use std::thread;
use std::thread::{Scope, Threads};

/// Runs each task on a thread of its own at the gate, and the input script on the caller's, until each has ended,
/// nothing more is enabled, or no steps are left. The history is one that the tasks and the input script can make
/// together, and nothing can follow it. The passes are those of `open_gate`, and there is a machine for each task,
/// which has asked nothing; the task asks what the machine's program asks, which suits it. If a thread is refused, the
/// caller goes round that task and those before it. The machines come back in order, with their room. Allocates
/// nothing.
pub fn run_free<A: Askers, M: TaskMachine + Drop + Send, R: Threads + Wait + Sync, P: Pace + Sync>(
    rt: &R,
    gate: Gate,
    machines: Vec<M>,
    passes: Vec<Pass>,
    pace: &P,
) -> Ran<M>
    requires passes { passes.items ≡ fresh_passes gate 0 (length gate.cell.tasks + 1) }
    requires crew { IsCrew M.is_fresh machines.items gate.cell }
    requires programs { AskAsPrograms M.fits M.asks A.asks (map M.program machines.items) }
    requires suit { SuitTasks M.fits M.asks gate.cell (map M.program machines.items) }
    ensures cell { result.core.cell ≡ gate.cell }
    ensures programs { map M.program result.machines.items ≡ map M.program machines.items }
    ensures room { vec_capacity result.machines ≡ vec_capacity machines }
    ensures legal { IsLegal (with_inputs A.asks gate.cell) gate.cell result.core.history }
    ensures whole { IsWhole (with_inputs A.asks gate.cell) gate.cell result.core.history }
    ensures stand { Stand M.stands_for result.machines.items result.core.history }
{
    let crew = begin(&gate, machines, passes);
    let crew = run_all(rt, &gate, pace, crew);
    close::<A, M>(gate, crew)
}

/// Closes the gate of a crew that has run.
fn close<A: Askers, M: TaskMachine + Drop>(gate: Gate, crew: Crew<M>) -> Ran<M>
    requires even { IsEven crew }
    requires room { length crew.passes.items + 1 ≤ vec_capacity crew.passes }
    requires one_each { length crew.machines.items ≡ length gate.cell.tasks }
    requires amid { AreAmid M.program M.fits M.asks M.stands_for M.due gate (jobs_of crew) }
    requires stopped { HaveStopped (jobs_of crew) }
    requires fed { IsFed gate crew.script }
    requires programs { AskAsPrograms M.fits M.asks A.asks (map M.program crew.machines.items) }
    requires may { AsksWhatItMay (with_inputs A.asks gate.cell) gate.cell }
    ensures cell { result.core.cell ≡ gate.cell }
    ensures machines { result.machines.items ≡ crew.machines.items }
    ensures room { vec_capacity result.machines ≡ vec_capacity crew.machines }
    ensures legal { IsLegal (with_inputs A.asks gate.cell) gate.cell result.core.history }
    ensures whole { IsWhole (with_inputs A.asks gate.cell) gate.cell result.core.history }
    ensures stand { Stand M.stands_for result.machines.items result.core.history }
{
    let Crew {
        machines,
        mut passes,
        script,
        ..
    } = crew;
    passes.push_reserved(script);
    let core = gate.close(passes);
    Ran { core, machines }
}

/// Runs the tasks on threads of a scope.
fn run_all<M: TaskMachine + Drop + Send, R: Threads + Wait + Sync, P: Pace + Sync>(
    rt: &R,
    gate: &Gate,
    pace: &P,
    crew: Crew<M>,
) -> Crew<M>
    requires { MayRun M.program M.fits M.asks M.stands_for M.due gate.now crew }
    ensures { HasRun M.program M.fits M.asks M.stands_for M.due gate.now crew result }
{
    let word = AtomicU64::new(0);
    let refused = &word;
    thread::scope(
        thread::scope_env(),
        rt,
        move |scope| -> Crew<M>
            requires { MayRun M.program M.fits M.asks M.stands_for M.due gate.now crew }
            ensures { HasRun M.program M.fits M.asks M.stands_for M.due gate.entry.now crew result }
        { run_crew(scope, rt, gate, refused, pace, crew) },
    )
}

/// Starts a thread for each task, the last one first, and waits for it. If one is refused, its task and those before it
/// are the caller's. The caller has the input script.
fn run_crew<'s, E, M: TaskMachine + Drop + Send, R: Threads + Wait + Sync, P: Pace + Sync>(
    scope: &Scope<'s, E>,
    rt: &'s R,
    gate: &'s Gate,
    refused: &'s AtomicU64,
    pace: &'s P,
    mut crew: Crew<M>,
) -> Crew<M>
where
    M: 's,
    requires { MayRun M.program M.fits M.asks M.stands_for M.due gate.now crew }
    ensures { HasRun M.program M.fits M.asks M.stands_for M.due gate.now crew result }
{
    let Some(job) = crew.pop() else {
        return go_round(rt, gate, pace, crew);
    };
    let task = crew.machines.len() as u32;
    match start(scope, rt, gate, refused, pace, task, job) {
        Err(job) => {
            crew.push(job);
            go_round(rt, gate, pace, crew)
        }
        Ok(child) => {
            let mut crew = run_crew(scope, rt, gate, refused, pace, crew);
            let job = finish(rt, gate, pace, task, child);
            crew.push(job);
            crew
        }
    }
}
