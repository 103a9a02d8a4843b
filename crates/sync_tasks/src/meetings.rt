ghost use Rattle.std.specs.Prelude.{◌≡◌, ◌<◌, ◌*◌, ◌+◌, ◌^◌, ◌↔◌, ℕ, false, not, replicate, IfOk, IsTrue, if◌then◌else◌};
ghost use Rattle.sync_tasks.specs.Meetings.{Meets, after_arrival, arrivals, at_start, before_all, is_listed, stand_at, with_stand};

use crate::arrived::Arrived;
use crate::stand::Stand;
use rapid_num::Memory;
use std::alloc::{AllocError, Global};
use std::marker::Model;

/// The state of each task at each meeting of its cell. Contracts see how many tasks and meetings there are, and the
/// states, task by task (RAPID Instructions: WaitSyncTask).
#[derive(Debug, Drop)]
pub struct Meetings {
    tasks: u32,
    meetings: u32,
    stands: Vec<Stand>,
}

impl Model for Meetings {
    ghost use Rattle.sync_tasks.specs.Meetings.{MeetingsData, IsEven};

    ghost Value = { MeetingsData };

    ghost view = { λ m. record { tasks = m.tasks; meetings = m.meetings; stands = m.stands.items } };

    // Each task has a state at each meeting.
    ghost invariant = { λ m. IsEven (record { tasks = m.tasks; meetings = m.meetings; stands = m.stands.items }) };
}

impl Meetings {
    /// No task has come to any meeting yet.
    pub fn new(alloc: Global, tasks: u32, meetings: u32) -> Result<Meetings, Memory>
        ensures { IfOk result (λ m. m ≡ before_all tasks meetings) }
    {
        let count = tasks as usize * meetings as usize;
        match starts(alloc, count) {
            Ok(stands) => Ok(Meetings {
                tasks,
                meetings,
                stands,
            }),
            Err(_) => Err(Memory),
        }
    }

    /// The task arrives at the meeting with the tasks of a set, bit k for task k. It goes on if it meets them all;
    /// otherwise it waits. Task, meeting and every listed task exist.
    pub fn arrive(&mut self, task: u32, meeting: u32, tasks: u16) -> Arrived
        requires task { task < self.old.tasks }
        requires meeting { meeting < self.old.meetings }
        requires few { (stand_at self.old task meeting).passed < 2 ^ 31 }
        ensures met { IsTrue result.met ↔ Meets self.old task meeting tasks }
        ensures fresh { result.fresh ≡ not (stand_at self.old task meeting).waits }
        ensures stands { self.new ≡ after_arrival result.met self.old task meeting }
    {
        let own = self.stand(task, meeting);
        let passed = own.passed;
        self.put(
            task,
            meeting,
            Stand {
                passed,
                waits: true,
            },
        );
        let met = self.all_come(meeting, tasks, passed);
        self.go_on(met, task, meeting, passed);
        Arrived {
            met,
            fresh: !own.waits,
        }
    }

    /// A task that waits, and has gone on that many times, goes on once more if it met the others.
    fn go_on(&mut self, met: bool, task: u32, meeting: u32, passed: u32)
        requires task { task < self.old.tasks }
        requires meeting { meeting < self.old.meetings }
        requires few { passed < 2 ^ 31 }
        ensures { self.new ≡ (if met then with_stand self.old task meeting (record { passed = passed + 1; waits = false }) else self.old) }
    {
        if met {
            let passed = passed + 1;
            let waits = false;
            self.put(task, meeting, Stand { passed, waits });
        }
    }

    /// The state of a task at a meeting.
    fn stand(&self, task: u32, meeting: u32) -> Stand
        requires task { task < self.now.tasks }
        requires meeting { meeting < self.now.meetings }
        ensures { result ≡ stand_at self.now task meeting }
    {
        self.stands[task as usize * self.meetings as usize + meeting as usize]
    }

    /// Sets the state of a task at a meeting.
    fn put(&mut self, task: u32, meeting: u32, stand: Stand)
        requires task { task < self.old.tasks }
        requires meeting { meeting < self.old.meetings }
        ensures { self.new ≡ with_stand self.old task meeting stand }
    {
        self.stands[task as usize * self.meetings as usize + meeting as usize] = stand;
    }

    /// Whether each listed task has come to the meeting more than that many times.
    fn all_come(&self, meeting: u32, tasks: u16, times: u32) -> bool
        requires meeting { meeting < self.now.meetings }
        ensures { IsTrue result ↔ ((k : ℕ) → k < self.now.tasks → IsTrue (is_listed tasks k) → times < arrivals (stand_at self.now k meeting)) }
    {
        for task in 0..self.tasks {
            if is_listed(tasks, task) && !self.stand(task, meeting).has_come(times) {
                return false;
            }
        }
        true
    }
}

/// Whether the task is in the set; no task past the 15th is.
fn is_listed(tasks: u16, task: u32) -> bool
    ensures { result ≡ is_listed tasks task }
{
    task < 16 && tasks / 2_u16.pow(task) % 2 == 1
}

/// That many states of tasks that have not come.
fn starts(alloc: Global, count: usize) -> Result<Vec<Stand>, AllocError>
    ensures { IfOk result (λ stands. stands.items ≡ replicate count at_start) }
{
    let start = Stand {
        passed: 0,
        waits: false,
    };
    Vec::from_elem(alloc, start, count)
}
