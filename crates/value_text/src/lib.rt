//! Values, parts of values, types, names and counts as text, for printed lines.
#![tactic(auto)]

mod count;
mod name;
mod num;
mod nums;
mod parts;
mod quoted;
mod rooms;
mod sorts;
mod values;

pub use count::push_count;
pub use name::push_name;
pub use num::push_num;
pub use parts::part_name;
pub use rooms::{COUNT_BYTES, NUM_BYTES, VALUE_BYTES, WORD_BYTES};
pub use sorts::sort_name;
pub use values::{push_value, truth_name};
