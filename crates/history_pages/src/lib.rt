//! The history of a cell in pages: an event takes a head of 24 bytes, and a word of 8 bytes for each num and for every
//! eight characters of its values, positions, shapes and texts.
#![tactic(auto)]

mod answer_form;
mod copying;
mod head;
mod laws;
mod paged;
mod pages;
mod payload;
mod request_form;
mod tail_form;
mod value_form;
mod words;

pub use laws::events_come_back;
pub use pages::Pages;
