//! The state of a cell after a history: the values of its persistents and of its tasks' module data, and for each task
//! the statement that it has reached and what it asks there. The machines and the core do each event again. Also the
//! place at which each event of a history is asked.
#![tactic(auto)]

mod data;
mod laws;
mod living;
mod persistents;
mod reaching;
mod state;
mod task_state;
mod tasks;
mod traced;
mod tracing;

pub use laws::{
    code_places_are_tree_places, code_states_are_tree_states, first_state_has_first_values,
    last_write_is_shown,
};
pub use reaching::state_of;
pub use state::CellState;
pub use task_state::TaskState;
pub use traced::Traced;
pub use tracing::trace_event;
