//! A task on a thread of its own.
ghost use Rattle.std.specs.Prelude.{◌≡◌, true, IfErr, IfOk};
ghost use Rattle.free_crew.specs.Amid.{GoesOnAs, IsAmid, is_stopped};
ghost use Rattle.free_crew.specs.Started.{IsPromised};

use crate::job::Job;
use cell_crew::TaskMachine;
use cell_gate::Gate;
use outside::Pace;
use std::snapshot::Snapshot;
use std::sync::Wait;
use std::sync::atomic::{AtomicU64, Ordering};
use std::thread::{Promise, PromisedHandle, Scope, Threads};

/// What a task's thread promises to give back: the task, having gone on at the gate.
#[derive(Drop)]
pub struct TaskBack<M> {
    pub gate: Snapshot<Gate>,
    pub job: Snapshot<Job<M>>,
    pub task: u32,
}

impl<M: TaskMachine> Promise<Job<M>> for TaskBack<M> {
    ghost kept_by = { λ p r. GoesOnAs M.program M.fits M.asks M.stands_for M.due p.gate.value p.task p.job.value r };
}

/// Starts a thread of the scope for a task. If the thread is refused, the task comes back.
pub(crate) fn start<'s, E, M: TaskMachine + Drop + Send, R: Threads + Wait + Sync, P: Pace + Sync>(
    scope: &Scope<'s, E>,
    rt: &'s R,
    gate: &'s Gate,
    refused: &'s AtomicU64,
    pace: &'s P,
    task: u32,
    job: Job<M>,
) -> Result<PromisedHandle<Job<M>, TaskBack<M>>, Job<M>>
where
    M: 's,
    requires { IsAmid M.program M.fits M.asks M.stands_for M.due gate.now task job }
    ensures ok { IfOk result (λ child. IsPromised gate.now task job child.promise) }
    ensures err { IfErr result (λ back. GoesOnAs M.program M.fits M.asks M.stands_for M.due gate.now task job back) }
{
    let back = TaskBack {
        gate: Snapshot::of(gate),
        job: Snapshot::of(&job),
        task,
    };
    let started = scope.spawn_with(
        back,
        move || -> Job<M>
            requires { IsAmid M.program M.fits M.asks M.stands_for M.due gate.now task job }
            ensures { GoesOnAs M.program M.fits M.asks M.stands_for M.due gate.entry.now task job result }
        { work(rt, gate, refused, pace, task, job) },
    );
    match started {
        Ok(child) => Ok(child),
        Err(kept) => {
            // The closure gives the task back at once.
            refused.store(u64::from(task) + 1, Ordering::SeqCst);
            Err((kept.value)())
        }
    }
}

/// The work of a task's thread: none if the thread was refused.
fn work<M: TaskMachine, R: Wait, P: Pace>(
    rt: &R,
    gate: &Gate,
    refused: &AtomicU64,
    pace: &P,
    task: u32,
    mut job: Job<M>,
) -> Job<M>
    requires { IsAmid M.program M.fits M.asks M.stands_for M.due gate.now task job }
    ensures { GoesOnAs M.program M.fits M.asks M.stands_for M.due gate.now task job result }
{
    if refused.load(Ordering::SeqCst) != u64::from(task) + 1 {
        run(rt, gate, pace, task, &mut job);
    }
    job
}

/// Runs a task until it asks nothing more.
fn run<M: TaskMachine, R: Wait, P: Pace>(rt: &R, gate: &Gate, pace: &P, task: u32, job: &mut Job<M>)
    requires { IsAmid M.program M.fits M.asks M.stands_for M.due gate.now task job.old }
    ensures came { GoesOnAs M.program M.fits M.asks M.stands_for M.due gate.now task job.old job.new }
    ensures stopped { is_stopped job.new.standing ≡ true }
{
    for _ in rt.forever() {
        if job.standing.is_stopped() {
            return;
        }
        job.step(rt, gate, pace, task);
        if job.standing.is_waiting() {
            gate.rest(rt, &mut job.pass);
        }
    }
    unreachable!()
}

/// Waits for a task's thread. Its promise does not say that the task has stopped, so this runs the task on if it has
/// not.
pub(crate) fn finish<M: TaskMachine + Drop + Send, R: Threads + Wait, P: Pace>(
    rt: &R,
    gate: &Gate,
    pace: &P,
    task: u32,
    child: PromisedHandle<Job<M>, TaskBack<M>>,
) -> Job<M>
    requires gate { child.promise.gate.value ≡ gate.now }
    requires task { child.promise.task ≡ task }
    ensures came { GoesOnAs M.program M.fits M.asks M.stands_for M.due gate.now task child.promise.job.value result }
    ensures stopped { is_stopped result.standing ≡ true }
{
    let mut back = child.join(rt);
    run(rt, gate, pace, task, &mut back);
    back
}
