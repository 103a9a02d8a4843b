use crate::requests::moving::Moving;
use crate::requests::pending::Pending;
use crate::routines::row::Row;
use crate::routines::running::Running;
use crate::steps::stage::Stage;
use machine_stacks::{Frames, Held, Operands};
use rapid_model::{At, Request};
use std::marker::Model;

/// A running task without its code: its phase, its place in the operations, its move between two setpoints, and its
/// data. Contracts also see its room: the most operands of a frame and the number of module data. All of its memory is
/// allocated when it is made.
#[derive(Drop)]
pub struct Task {
    pub(crate) stage: Stage,
    pub(crate) asked: Request,
    pub(crate) then: Pending,
    pub(crate) pc: u32,
    pub(crate) frame: Running,
    pub(crate) way: Option<Moving>,
    pub(crate) rows: Vec<Row>,
    pub(crate) operands: Operands,
    pub(crate) frames: Frames,
    pub(crate) slots: Vec<Held>,
    pub(crate) errno: u8,
    pub(crate) trapped: bool,
    pub(crate) place: Option<At>,
    pub(crate) room: u32,
}

impl Model for Task {
    ghost use Rattle.std.specs.Prelude.{reverse};
    ghost use Rattle.std.specs.Vec.{vec_capacity};
    ghost use Rattle.task_steps.specs.Seen.{Seen};

    ghost Value = { Seen };

    ghost use Rattle.task_steps.specs.Tasks.{IsTask, seen_task};

    ghost view = { seen_task };

    ghost invariant = { IsTask };
}

impl Task {
    ghost use Rattle.std.specs.Prelude.{◌≡◌, ◌<◌, length, slice_get, Some};

    /// The number of the task's module data.
    pub fn slots(&self) -> u32
        ensures room { result ≡ self.now.room.slots }
        ensures data { result ≡ length self.now.data'.slots }
    {
        self.slots.len() as u32
    }

    /// A module datum, by its number from 0.
    pub fn datum(&self, slot: u32) -> &Held
        requires { slot < self.now.room.slots }
        ensures { slice_get self.now.data'.slots slot ≡ Some result.now }
    {
        &self.slots[slot as usize]
    }

    /// The position of the statement that began last, or asked to; none before the first.
    pub fn place(&self) -> Option<At>
        ensures { result ≡ self.now.data'.place }
    {
        self.place
    }
}
