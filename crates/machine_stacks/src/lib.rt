//! The memory of a machine that runs stack code: the operands and the data of all active routines. All of it is
//! allocated when the machine is made.
#![tactic(auto)]

mod apart;
mod first_values;
mod frames;
mod held;
mod indexes;
mod mark;
mod moving;
mod operands;
mod run_start;
mod slots;
mod starts;
mod word;
mod words;

pub use frames::Frames;
pub use held::Held;
pub use operands::Operands;
pub use run_start::RunStart;
pub use slots::slots_of;
pub use starts::starts_of;
