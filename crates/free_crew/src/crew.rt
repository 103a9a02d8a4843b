ghost use Rattle.std.specs.Prelude.{◌≡◌, ◌+◌, [], ◌∷◌, ◌++◌, IfSome, IfNone, OnSome, length};
ghost use Rattle.free_crew.specs.Crews.{HasRoom, IsEven, IsSameRoom, jobs_of};

use crate::job::Job;
use crate::standing::Standing;
use arrayvec::ArrayVec;
use cell_gate::Pass;
use rapid_limits::MOST_TASKS;

/// The first tasks, in rows: the machine, the pass and the standing of a task have the same place in each. Beside them
/// is the input script's pass.
#[derive(Drop)]
pub struct Crew<M> {
    pub machines: Vec<M>,
    pub passes: Vec<Pass>,
    pub standings: ArrayVec<Standing, MOST_TASKS>,
    pub script: Pass,
}

impl<M: Drop> Crew<M> {
    /// Removes the last task.
    pub(crate) fn pop(&mut self) -> Option<Job<M>>
        requires { IsEven self.old }
        ensures even { IsEven self.new }
        ensures script { self.new.script ≡ self.old.script }
        ensures some { IfSome result (λ job. jobs_of self.old ≡ jobs_of self.new ++ job ∷ []) }
        ensures fewer { OnSome result (length self.new.machines.items + 1 ≡ length self.old.machines.items) }
        ensures room { OnSome result (HasRoom self.new) }
        ensures same_room { IsSameRoom self.old self.new }
        ensures none { IfNone result ((jobs_of self.old ≡ []) × (jobs_of self.new ≡ []) × (length self.new.machines.items ≡ length self.old.machines.items)) }
    {
        let machine = self.machines.pop()?;
        let pass = self.passes.pop().unwrap();
        let standing = self.standings.pop().unwrap();
        Some(Job {
            machine,
            pass,
            standing,
        })
    }

    /// Adds a task after the others. There is room for it.
    pub(crate) fn push(&mut self, job: Job<M>)
        requires even { IsEven self.old }
        requires room { HasRoom self.old }
        ensures even { IsEven self.new }
        ensures script { self.new.script ≡ self.old.script }
        ensures jobs { jobs_of self.new ≡ jobs_of self.old ++ job ∷ [] }
        ensures len { length self.new.machines.items ≡ length self.old.machines.items + 1 }
        ensures same_room { IsSameRoom self.old self.new }
    {
        let Job {
            machine,
            pass,
            standing,
        } = job;
        self.machines.push_reserved(machine);
        self.passes.push_reserved(pass);
        self.standings.push(standing);
    }
}
