//! The search for the gap of a segment and a zone.

pub(crate) mod arrival;
pub(crate) mod best;
pub(crate) mod best_pair;
pub(crate) mod earliest;
pub(crate) mod entry;
pub(crate) mod gap_of;
pub(crate) mod latest;
pub(crate) mod least_end;
pub(crate) mod level;
pub(crate) mod lines;
pub(crate) mod lowest_terms;
pub(crate) mod raised;
