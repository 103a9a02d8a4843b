//! The values of a cell's persistents.
#![tactic(auto)]

mod index_range;
mod laws;
mod laying;
mod part;
mod place;
mod rows;
mod seen;
mod store;

pub use index_range::IndexRange;
pub use laws::parts_fit;
pub use part::Part;
pub use seen::Seen;
pub use store::Store;
