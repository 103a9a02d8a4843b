//! Cell scripts: which texts are one, and the script that they spell.
#![tactic(auto)]

mod angle;
mod arm;
mod bounds;
mod fault;
mod input;
mod keys;
mod list;
mod name;
mod path;
mod pers;
mod plain;
mod script;
mod shape;
mod signal;
mod task;
mod zone;

pub use fault::ScriptFault;
pub use script::read_script;
