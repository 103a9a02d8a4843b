ghost use Rattle.std.specs.Prelude.{◌≡◌, ◌≤◌};
ghost use Rattle.stack_code.specs.Firsts.{in_full};

use rapid_limits::MOST_AXES;
use rapid_model::NameText;
use stack_code::{FirstRun, LinkedCode, Marks, Op, PersSort, RoutineRow};
use std::marker::Model;
use typed_trees::Datum;

/// The code of a task. Contracts see it as plain data. Its invariant: the code is live (after any answers that fit step
/// by step it reaches a request, or has ended); the owners tile the operations in order; there are fewer than 2^32
/// operations and module data; the arm has 6 to 12 axes, or 0 without an arm; and without an arm no operation needs one.
#[derive(Drop)]
pub struct Code {
    pub linked: LinkedCode,
}

impl Model for Code {
    ghost use Rattle.stack_code.specs.CodeData.{CodeData};
    ghost use Rattle.task_code.specs.IsCode.{IsCode};

    ghost Value = { CodeData };

    ghost view = { λ c. c.linked };

    ghost invariant = { λ c. IsCode c.linked };
}

impl Code {
    /// The operations.
    pub fn ops(&self) -> &[Op]
        ensures { result.now ≡ self.now.ops }
    {
        &self.linked.ops
    }

    /// The routines.
    pub fn routines(&self) -> &[RoutineRow]
        ensures { result.now ≡ self.now.routines }
    {
        &self.linked.routines
    }

    /// What error recovery needs.
    pub fn marks(&self) -> &Marks
        ensures owners { result.now.owners.items ≡ self.now.owners }
        ensures handlers { result.now.handlers.items ≡ self.now.handlers }
    {
        &self.linked.marks
    }

    /// The initial values of the modules' data.
    pub fn slots(&self) -> &[Datum]
        ensures { result.now ≡ self.now.slots }
    {
        &self.linked.slots
    }

    /// The initial values of frames, run by run.
    pub fn firsts(&self) -> &[FirstRun]
        ensures { in_full result.now ≡ self.now.firsts }
    {
        &self.linked.firsts
    }

    /// The names of all tasks of the script.
    pub fn tasks(&self) -> &[NameText]
        ensures { result.now ≡ self.now.tasks }
    {
        &self.linked.tasks
    }

    /// The types of the task's persistents.
    pub fn sorts(&self) -> &[PersSort]
        ensures { result.now ≡ self.now.sorts }
    {
        &self.linked.sorts
    }

    /// The most operands that a frame holds.
    pub fn deepest(&self) -> u32
        ensures { result ≡ self.now.deepest }
    {
        self.linked.deepest
    }

    /// The number of axes of the task's arm: 6 to 12, or 0 without an arm.
    pub fn axes(&self) -> u8
        ensures same { result ≡ self.now.axes }
        ensures few { result ≤ MOST_AXES }
    {
        self.linked.axes
    }

    /// The number of `main` among the routines.
    pub fn main(&self) -> u32
        ensures { result ≡ self.now.main }
    {
        self.linked.main
    }
}
