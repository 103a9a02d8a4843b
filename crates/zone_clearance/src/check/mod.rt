//! The check of a gap and of the sides that prove it. It shares no code with the search.

pub(crate) mod claim;
pub(crate) mod claiming;
pub(crate) mod coprime;
pub(crate) mod gap_holds;
pub(crate) mod passing;
pub(crate) mod proved;
pub(crate) mod side_line;
