//! What each operation of a task's stack code does to the task.
#![tactic(auto)]

mod operands;
mod operations;
mod requests;
mod routines;
mod steps;
mod task;

pub use operands::gathering::Gathering;
pub use requests::departure::Departure;
pub use requests::pending::Pending;
pub use routines::failed::Failed;
pub use routines::loaded::LoadedCode;
pub use routines::running::Running;
pub use task::Task;
