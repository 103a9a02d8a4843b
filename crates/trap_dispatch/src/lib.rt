//! The interrupts of a cell's tasks: their numbers, what they watch, and the queue of those that wait for their traps.
#![tactic(auto)]

mod connect_fault;
mod connected;
mod due;
mod firing;
mod order;
mod order_fault;
mod task_traps;
mod traps;
mod unknown;

pub use connect_fault::ConnectFault;
pub use connected::Connected;
pub use due::Due;
pub use order::Order;
pub use order_fault::OrderFault;
pub use traps::Traps;
pub use unknown::Unknown;
