ghost use Rattle.std.specs.Prelude.{◌≡◌, ◌<◌, List, [], ◌∷◌, ◌++◌, IsTrue, Some, IsSome, IfOk, IfErr, length, slice_get};
ghost use Rattle.rapid_model.specs.Fits.{fits_request};
ghost use Rattle.rapid_model.specs.declared.answer.Answer.{Answer};
ghost use Rattle.rapid_model.specs.declared.request.Request.{Request};
ghost use Rattle.rapid_model.specs.declared.request.Request.TheVariants as requests;
ghost use Rattle.stack_code.specs.CodeRuns.{fitting_by};
ghost use Rattle.task_machine.specs.MachineData.{request_of};
ghost use Rattle.task_machine.specs.Standing.{StandsFor};
ghost use Rattle.task_steps.specs.declared.requests.pending.Pending.{Pending};
ghost use Rattle.task_steps.specs.Phases as phases;

use crate::course::Course;
use machine_stacks::Held;
use rapid_model::{Answer, At, Request};
use std::alloc::Global;
use std::marker::Model;
use task_code::Code;
use task_steps::LoadedCode;

/// A running task: it asks what its stack code asks, one request at a time. Only `new` allocates.
#[derive(Drop)]
pub struct Machine {
    course: Course,
}

impl Model for Machine {
    ghost use Rattle.task_machine.specs.MachineData.{MachineData};
    ghost use Rattle.task_machine.specs.Standing.{IsMachine};

    ghost Value = { MachineData };

    ghost view = { λ m. record { code = m.course.code; phase = m.course.task.phase; conf = m.course.task.conf; data' = m.course.task.data' } };

    ghost invariant = { λ m. IsMachine (record { code = m.course.code; phase = m.course.task.phase; conf = m.course.task.conf; data' = m.course.task.data' }) };
}

impl Machine {
    /// A machine that has asked nothing yet, with room for 32 frames, 20,000 values and 33 times the most operands of a
    /// frame of the code. Returns the code if an allocation fails.
    pub fn new(alloc: Global, code: Code) -> Result<Machine, Code>
        ensures code { IfOk result (λ m. m.code ≡ code) }
        ensures fresh { IfOk result (λ m. m.phase ≡ phases.New) }
        ensures back { IfErr result (λ back. back ≡ code) }
    {
        let loaded = LoadedCode::new(alloc, code)?;
        match Course::new(alloc, loaded) {
            Ok(course) => Ok(Machine { course }),
            Err(loaded) => Err(loaded.into_code()),
        }
    }

    /// Asks the first request.
    pub fn first(&mut self) -> Request
        requires { self.old.phase ≡ phases.New }
        ensures code { self.new.code ≡ self.old.code }
        ensures asks { request_of self.new ≡ Some result }
        ensures stands { StandsFor self.new [] }
    {
        self.begin();
        self.last().copy()
    }

    /// Asks the request that follows the answer to the last one, which did not end the task.
    pub fn next(&mut self, answer: Answer) -> Request
        requires asked { (request : Request) × (then : Pending) × (self.old.phase ≡ phases.Asking request then) }
        requires fits { (request : Request) → request_of self.old ≡ Some request → IsTrue (fits_request (fitting_by self.old.code self.old.data'.trapped) request answer) }
        ensures code { self.new.code ≡ self.old.code }
        ensures asks { request_of self.new ≡ Some result }
        ensures stands { (answers : List Answer) → StandsFor self.old answers → StandsFor self.new (answers ++ answer ∷ []) }
    {
        self.go_on(answer);
        self.last().copy()
    }

    /// The request that is due.
    pub fn last(&self) -> &Request
        requires { IsSome (request_of self.now) }
        ensures { request_of self.now ≡ Some result.now }
    {
        self.course.due()
    }

    /// Asks the first request, without returning a copy of it.
    pub(crate) fn begin(&mut self)
        requires { self.old.phase ≡ phases.New }
        ensures code { self.new.code ≡ self.old.code }
        ensures due { IsSome (request_of self.new) }
        ensures stands { StandsFor self.new [] }
    {
        self.course.begin();
        self.course.settle();
    }

    /// Asks the request that follows the answer to the last one, which did not end the task, without returning a copy
    /// of it.
    pub(crate) fn go_on(&mut self, answer: Answer)
        requires asked { (request : Request) × (then : Pending) × (self.old.phase ≡ phases.Asking request then) }
        requires fits { (request : Request) → request_of self.old ≡ Some request → IsTrue (fits_request (fitting_by self.old.code self.old.data'.trapped) request answer) }
        ensures code { self.new.code ≡ self.old.code }
        ensures due { IsSome (request_of self.new) }
        ensures stands { (answers : List Answer) → StandsFor self.old answers → StandsFor self.new (answers ++ answer ∷ []) }
    {
        self.course.reply(answer);
        self.course.settle();
    }

    /// The number of the task's module data.
    pub fn slots(&self) -> u32
        ensures code { result ≡ length self.now.code.slots }
        ensures data { result ≡ length self.now.data'.slots }
    {
        self.course.slots()
    }

    /// A module datum of the task, by its number from 0.
    pub fn datum(&self, slot: u32) -> &Held
        requires { slot < length self.now.code.slots }
        ensures { slice_get self.now.data'.slots slot ≡ Some result.now }
    {
        self.course.datum(slot)
    }

    /// The position of the statement that began last or, while a Look is due, asks to begin; none before the first Look.
    pub fn place(&self) -> Option<At>
        ensures kept { result ≡ self.now.data'.place }
        ensures looks { request_of self.now ≡ Some requests.Look → IsSome result }
    {
        self.course.place()
    }

    /// The task's code.
    pub fn code(&self) -> &Code
        ensures { result.now ≡ self.now.code }
    {
        self.course.code()
    }
}
