//! The operands and the data of a task: popped, pushed, read and stored.

pub(crate) mod first_counts;
pub(crate) mod gathering;
pub(crate) mod indexing;
pub(crate) mod numbers;
pub(crate) mod owning;
pub(crate) mod parts;
pub(crate) mod persistents;
pub(crate) mod pops;
pub(crate) mod pushing;
pub(crate) mod reading;
pub(crate) mod storing;
pub(crate) mod tops;
