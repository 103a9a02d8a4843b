use crate::task_state::TaskState;
use rapid_model::Value;
use std::marker::Model;

/// The state of a cell: that of each task, in script order, and the elements of each persistent, by its number; one that
/// is not an array has one element.
#[derive(Drop)]
pub struct CellState {
    pub tasks: Vec<TaskState>,
    pub pers: Vec<Vec<Value>>,
}

impl Model for CellState {
    ghost use Rattle.std.specs.Prelude.{map};
    ghost use Rattle.cell_state.specs.States.{CellStateData};

    ghost Value = { CellStateData };

    ghost view = { λ s. record { tasks = s.tasks.items; pers = map (λ elements. elements.items) s.pers.items } };
}
