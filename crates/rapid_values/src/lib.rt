//! Values by type: their start values, components and parts; RAPID's operators on them; equality; and the array element
//! that a num names.
#![tactic(auto)]

mod applied;
mod components;
mod equality;
mod index;
mod laws;
mod num_operators;
mod nums;
mod operation;
mod parts;
mod put;
mod record;
mod start;
mod text_operators;

pub use applied::Applied;
pub use components::{component, component_sorts};
pub use equality::same_value;
pub use index::{element_number, whole_index};
pub use laws::{equal_values, equality_is_symmetric, made_parts, put_parts, value_is_full};
pub use operation::apply;
pub use parts::part;
pub use put::with_part;
pub use record::record_of;
pub use start::start_value;
