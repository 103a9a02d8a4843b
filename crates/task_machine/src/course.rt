ghost use Rattle.std.specs.Prelude.{◌≡◌};
ghost use Rattle.task_code.specs.Leads.{Runs, runs_prop};
ghost use Rattle.task_steps.specs.Doing.{doing_of};
ghost use Rattle.task_steps.specs.Seen.{room_of};

use crate::living::keep_live;
use machine_stacks::Held;
use rapid_model::{Answer, At, Request};
use std::alloc::Global;
use task_code::Code;
use task_steps::{LoadedCode, Task};

/// A task and its code, which leads from the task's point of execution to its next request.
#[derive(Drop)]
pub(crate) struct Course {
    pub(crate) code: LoadedCode,
    pub(crate) task: Task,
    ghost room: { task.room ≡ room_of code },
    ghost runs: { Runs code (doing_of code task.phase task.conf) task.data' } by { runs_prop code (doing_of code task.phase task.conf) task.data' },
}

impl Course {
    ghost use Rattle.std.specs.Prelude.{◌≡◌, ◌≢◌, ◌<◌, ◌++◌, ◌∷◌, [], List, length, Some, IsSome, IsTrue, IfOk, IfErr, slice_get};
    ghost use Rattle.rapid_model.specs.Fits.{fits_request};
    ghost use Rattle.rapid_model.specs.declared.answer.Answer.{Answer};
    ghost use Rattle.rapid_model.specs.declared.request.Request.{Request};
    ghost use Rattle.stack_code.specs.CodeRuns.{fitting_by};
    ghost use Rattle.stack_code.specs.Entering.{initial};
    ghost use Rattle.task_code.specs.Reached.{Reached};
    ghost use Rattle.task_steps.specs.Seen.{request_in};
    ghost use Rattle.task_steps.specs.declared.requests.pending.Pending.{Pending};
    ghost use Rattle.task_steps.specs.Phases as phases;
    ghost use Rattle.task_machine.specs.Standing.{HasPlace, StandsFor, machine_of};

    /// A task of the code that has not begun. Returns the code if an allocation fails.
    pub(crate) fn new(alloc: Global, code: LoadedCode) -> Result<Course, LoadedCode>
        ensures code { IfOk result (λ c. c.code ≡ code) }
        ensures fresh { IfOk result (λ c. c.task.phase ≡ phases.New) }
        ensures data { IfOk result (λ c. c.task.data' ≡ initial code) }
        ensures back { IfErr result (λ back. back ≡ code) }
    {
        keep_live(code.code());
        match Task::new(alloc, &code) {
            Ok(task) => Ok(Course { code, task }),
            Err(_) => Err(code),
        }
    }

    /// The task begins.
    pub(crate) fn begin(&mut self)
        requires fresh { self.old.task.phase ≡ phases.New }
        requires data { self.old.task.data' ≡ initial self.old.code }
        ensures code { self.new.code ≡ self.old.code }
        ensures begun { self.new.task.phase ≢ phases.New }
        ensures stands { StandsFor (machine_of self.old.code self.new.task) [] }
        ensures place { HasPlace self.new.task.phase self.new.task.data' }
    {
        self.task.begin(&self.code);
    }

    /// Goes on until a request is due.
    pub(crate) fn settle(&mut self)
        requires begun { self.old.task.phase ≢ phases.New }
        requires place { HasPlace self.old.task.phase self.old.task.data' }
        ensures code { self.new.code ≡ self.old.code }
        ensures due { IsSome (request_in self.new.task.phase) }
        ensures place { HasPlace self.new.task.phase self.new.task.data' }
        ensures reached { (answers : List Answer) → Reached self.old.code (doing_of self.old.code self.old.task.phase self.old.task.conf) self.old.task.data' answers → Reached self.old.code (doing_of self.old.code self.new.task.phase self.new.task.conf) self.new.task.data' answers }
    {
        while self.task.is_going() {
            self.advance();
        }
    }

    /// Runs the operation at the task's place.
    fn advance(&mut self)
        requires going { self.old.task.phase ≡ phases.Going }
        ensures code { self.new.code ≡ self.old.code }
        ensures begun { self.new.task.phase ≢ phases.New }
        ensures nearer { self.new.runs.0 < self.old.runs.0 }
        ensures place { HasPlace self.new.task.phase self.new.task.data' }
        ensures reached { (answers : List Answer) → Reached self.old.code (doing_of self.old.code self.old.task.phase self.old.task.conf) self.old.task.data' answers → Reached self.old.code (doing_of self.old.code self.new.task.phase self.new.task.conf) self.new.task.data' answers }
    {
        self.task.step(&self.code);
    }

    /// Goes on with the answer to what was asked.
    pub(crate) fn reply(&mut self, answer: Answer)
        requires asking { (request : Request) × (then : Pending) × (self.old.task.phase ≡ phases.Asking request then) }
        requires stands { (answers : List Answer) × StandsFor (machine_of self.old.code self.old.task) answers }
        requires fits { (request : Request) → request_in self.old.task.phase ≡ Some request → IsTrue (fits_request (fitting_by self.old.code self.old.task.data'.trapped) request answer) }
        ensures code { self.new.code ≡ self.old.code }
        ensures begun { self.new.task.phase ≢ phases.New }
        ensures stands { (answers : List Answer) → StandsFor (machine_of self.old.code self.old.task) answers → StandsFor (machine_of self.old.code self.new.task) (answers ++ answer ∷ []) }
        ensures place { HasPlace self.new.task.phase self.new.task.data' }
    {
        keep_live(self.code.code());
        self.task.reply(&self.code, answer);
    }

    /// The request that is due.
    pub(crate) fn due(&self) -> &Request
        requires { IsSome (request_in self.now.task.phase) }
        ensures { request_in self.now.task.phase ≡ Some result.now }
    {
        self.task.due()
    }

    /// The number of the task's module data.
    pub(crate) fn slots(&self) -> u32
        ensures code { result ≡ length self.now.code.slots }
        ensures data { result ≡ length self.now.task.data'.slots }
    {
        self.task.slots()
    }

    /// A module datum, by its number from 0.
    pub(crate) fn datum(&self, slot: u32) -> &Held
        requires { slot < length self.now.code.slots }
        ensures { slice_get self.now.task.data'.slots slot ≡ Some result.now }
    {
        self.task.datum(slot)
    }

    /// The position of the statement that began last, or asked to; none before the first.
    pub(crate) fn place(&self) -> Option<At>
        ensures { result ≡ self.now.task.data'.place }
    {
        self.task.place()
    }

    /// The task's code.
    pub(crate) fn code(&self) -> &Code
        ensures { result.now ≡ self.now.code }
    {
        self.code.code()
    }
}
