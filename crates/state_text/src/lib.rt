//! The lines that `state` and `trace` print, written into buffers of fixed size: the values of a cell's persistents and of
//! its tasks' module data, and where each task is; and each event with its place.
#![tactic(auto)]

mod datum;
mod elements;
mod laws;
mod place;
mod rooms;
mod shown;
mod sources;
mod task;
mod trace;
mod value;

pub use datum::write_datum;
pub use elements::element_of;
pub use laws::traces_are_histories;
pub use rooms::LINE_BYTES;
pub use shown::is_shown;
pub use sources::Sources;
pub use task::write_task;
pub use trace::write_trace;
pub use value::write_value;
