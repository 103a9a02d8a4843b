//! What the command words ask for: an action and the names of the files that it reads first and last, or the position of
//! the word that is refused. Words are bytes.
#![tactic(auto)]

mod command;
mod moves;

pub use command::{Action, Command, is_migrate, is_run, read_words};
