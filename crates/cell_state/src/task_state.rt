use rapid_model::{At, Request};
use std::marker::Model;
use typed_trees::Datum;

/// The state of a task: the place of the statement that began last or, while a Look is due, asks to begin, none before
/// the first Look; the request that is due, none once the task has ended; and the data of its modules, numbered as in
/// its code, an array as one for each element.
#[derive(Drop)]
pub struct TaskState {
    pub place: Option<At>,
    pub next: Option<Request>,
    pub values: Vec<Datum>,
}

impl Model for TaskState {
    ghost use Rattle.cell_state.specs.States.{TaskStateData};

    ghost Value = { TaskStateData };

    ghost view = { λ s. record { place = s.place; next = s.next; values = s.values.items } };
}
