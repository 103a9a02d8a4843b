//! The lines of a run and of its history, written into buffers of fixed size; a history's text is read back to the same
//! events and fates, and no other text is accepted.
#![tactic(auto)]

mod answer_reading;
mod answers;
mod axes;
mod counts;
mod event_line;
mod fate_line;
mod fate_reading;
mod fitting;
mod history_fault;
mod laws;
mod line_reading;
mod lined_events;
mod names;
mod numbers;
mod one_line;
mod part_sorts;
mod path_reading;
mod paths;
mod places;
mod quotes;
mod ranges;
mod reading;
mod request_reading;
mod requests;
mod rooms;
mod shape_reading;
mod shapes;
mod signal_reading;
mod signals;
mod texts;
mod value_reading;
mod values;
mod whole_line;
mod words;

pub use answers::answer_words;
pub use event_line::{write_event, write_setpoint};
pub use fate_line::write_fate;
pub use history_fault::HistoryFault;
pub use laws::{first_fault_is_one, history_is_one};
pub use lined_events::has_line;
pub use names::{Names, names_of};
pub use reading::read_history;
pub use requests::request_words;
pub use rooms::LINE_BYTES;
pub use shapes::shape_words;
pub use values::value_words;
pub use whole_line::line_of;
