//! What is printed of a state and of a traced run, with places in the tasks' modules.
#![tactic(auto)]

mod state;
mod trace;

pub use state::print_state;
pub use trace::print_trace;
