use crate::first_run::FirstRun;
use crate::marks::Marks;
use crate::op::Op;
use crate::pers_sort::PersSort;
use crate::routine_row::RoutineRow;
use rapid_model::NameText;
use std::marker::Model;
use typed_trees::Datum;

/// All parts of the code of a task: its operations and routines, what error recovery needs, the initial values of
/// module data and of frames, the names of all tasks of the script, the types of the task's persistents in the order of
/// its tree, the most operands that a frame holds, the number of `main`, and the number of axes of the task's arm, 0
/// without an arm. Contracts see it as plain data and say nothing of what it does.
#[derive(Drop)]
pub struct LinkedCode {
    pub ops: Vec<Op>,
    pub routines: Vec<RoutineRow>,
    pub marks: Marks,
    pub slots: Vec<Datum>,
    pub firsts: Vec<FirstRun>,
    pub tasks: Vec<NameText>,
    pub sorts: Vec<PersSort>,
    pub deepest: u32,
    pub main: u32,
    pub axes: u8,
}

impl Model for LinkedCode {
    ghost use Rattle.stack_code.specs.CodeData.{CodeData};
    ghost use Rattle.stack_code.specs.Firsts.{in_full};

    ghost Value = { CodeData };

    ghost view = { λ c. record {
      ops = c.ops.items;
      routines = c.routines.items;
      owners = c.marks.owners.items;
      handlers = c.marks.handlers.items;
      slots = c.slots.items;
      firsts = in_full c.firsts.items;
      tasks = c.tasks.items;
      sorts = c.sorts.items;
      deepest = c.deepest;
      main = c.main;
      axes = c.axes;
    } };
}
