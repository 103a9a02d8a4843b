//! When a task's tree is well typed, as facts about the tree alone, and laws: a well typed task never misfits, and asks
//! only what it may ask.
#![tactic(auto)]

mod laws;

pub use laws::{
    constants_stay, no_setpoint_in_a_trap, requests_suit_the_task, tasks_ask_until_their_end,
    well_typed_tasks_go_on,
};
