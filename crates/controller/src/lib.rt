//! The controller: command words and files in, a report and printed lines out. It loads, checks and compiles a cell,
//! runs it round-robin or on threads, measures or traces a run, audits a history of it or tells the state after one, and
//! prints the run, the tables, what was found, the state, the script in version 2 or the refusal.
#![tactic(auto)]

mod accepted;
mod action;
mod audit_cell;
mod free_run;
mod last_text;
mod laws;
mod list;
mod load_cell;
mod measure_cell;
mod migrate;
mod prepared;
mod refusal;
mod report;
mod run;
mod shelf_cell;
mod state_cell;
mod texts_cell;
mod top;
mod trace_cell;

pub use action::quiet;
pub use cell_loading::{ModuleRule, Refused};
pub use command_words::{Action, is_run};
pub use free_run::free;
pub use laws::{
    given_setpoints_miss_zones, verdict_is_one, verdicts_refuse_input, what_is_asked_is_done,
};
pub use report::{Report, out_of_memory};
pub use top::controller;
