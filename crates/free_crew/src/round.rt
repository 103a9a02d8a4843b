//! The caller's own tasks and the input script, round by round.
ghost use Rattle.std.specs.Prelude.{◌≡◌, IsTrue};
ghost use Rattle.free_crew.specs.Amid.{AreAmid, GoesOnAs, HaveStopped, IsAmid, IsSamePrograms};
ghost use Rattle.free_crew.specs.Crews.{IsEven, IsSameSize, jobs_of};
ghost use Rattle.free_crew.specs.Runs.{HasRun, MayRun};

use crate::crew::Crew;
use crate::job::Job;
use cell_crew::TaskMachine;
use cell_gate::{Fed, Gate};
use outside::Pace;
use std::sync::Wait;

/// The outcome of a round.
#[derive(Clone, Copy)]
pub(crate) struct Round {
    /// A request was answered.
    pub moved: bool,
    /// No task asks anything more.
    pub over: bool,
}

/// Goes round a crew's tasks, which have no thread, and the input script, one request each, until none asks anything
/// more.
pub(crate) fn go_round<M: TaskMachine + Drop, R: Wait, P: Pace>(
    rt: &R,
    gate: &Gate,
    pace: &P,
    mut crew: Crew<M>,
) -> Crew<M>
    requires { MayRun M.program M.fits M.asks M.stands_for M.due gate.now crew }
    ensures { HasRun M.program M.fits M.asks M.stands_for M.due gate.now crew result }
{
    for _ in rt.forever() {
        let fed = gate.feed_now(rt, &mut crew.script);
        let (later, round) = step_each(rt, gate, pace, crew);
        crew = later;
        match fed {
            Fed::Over if round.over => return crew,
            Fed::Given => {}
            _ => {
                // A change since the script looked ends the wait.
                if !round.moved {
                    gate.rest(rt, &mut crew.script);
                }
            }
        }
    }
    unreachable!()
}

/// One request of each task that has not stopped, in order.
fn step_each<M: TaskMachine + Drop, R: Wait, P: Pace>(
    rt: &R,
    gate: &Gate,
    pace: &P,
    mut crew: Crew<M>,
) -> (Crew<M>, Round)
    requires even { IsEven crew }
    requires amid { AreAmid M.program M.fits M.asks M.stands_for M.due gate.now (jobs_of crew) }
    ensures size { IsSameSize crew result.0 }
    ensures script { result.0.script ≡ crew.script }
    ensures amid { AreAmid M.program M.fits M.asks M.stands_for M.due gate.now (jobs_of result.0) }
    ensures programs { IsSamePrograms M.program (jobs_of crew) (jobs_of result.0) }
    ensures over { IsTrue result.1.over → HaveStopped (jobs_of result.0) }
{
    let Some(mut job) = crew.pop() else {
        return (
            crew,
            Round {
                moved: false,
                over: true,
            },
        );
    };
    let task = crew.machines.len() as u32;
    let (mut crew, before) = step_each(rt, gate, pace, crew);
    let moved = step_one(rt, gate, pace, task, &mut job);
    let stopped = job.standing.is_stopped();
    let over = both(before.over, stopped);
    crew.push(job);
    (
        crew,
        Round {
            moved: before.moved || moved,
            over,
        },
    )
}

/// One request of a task, unless it has stopped. Returns whether the task did something other than wait.
fn step_one<M: TaskMachine, R: Wait, P: Pace>(
    rt: &R,
    gate: &Gate,
    pace: &P,
    task: u32,
    job: &mut Job<M>,
) -> bool
    requires { IsAmid M.program M.fits M.asks M.stands_for M.due gate.now task job.old }
    ensures { GoesOnAs M.program M.fits M.asks M.stands_for M.due gate.now task job.old job.new }
{
    if job.standing.is_stopped() {
        return false;
    }
    job.step(rt, gate, pace, task);
    !job.standing.is_waiting()
}

fn both(one: bool, other: bool) -> bool
    ensures { IsTrue result → IsTrue one × IsTrue other }
{
    one && other
}
