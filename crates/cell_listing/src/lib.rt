//! The lines that `list` prints, written into buffers of fixed size: the persistents, signals and meetings of a cell,
//! and the operations of its tasks' code.
#![tactic(auto)]

mod args;
mod kinds;
mod listing;
mod meetings;
mod names;
mod op_rooms;
mod operations;
mod persistents;
mod rooms;
mod signals;

pub use listing::listing_line;
pub use meetings::write_meeting;
pub use op_rooms::OPERATION_BYTES;
pub use operations::write_operation;
pub use persistents::{push_in_braces, push_owner, write_persistent};
pub use rooms::LINE_BYTES;
pub use signals::write_signal;
