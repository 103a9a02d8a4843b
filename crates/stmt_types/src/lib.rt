//! The typed forms of a routine's statements.
#![tactic(auto)]

mod all_labels;
mod around;
mod body;
mod bounds;
mod calls;
mod case_values;
mod counter_index;
mod jumps;
mod label_list;
mod labels;
mod returns;
mod simple;
mod statements;
mod targets;
mod typed_rows;

pub use all_labels::labels_of;
pub use body::Body;
pub use label_list::LabelList;
pub use statements::typed_list;
pub use typed_rows::TypedList;
