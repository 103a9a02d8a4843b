//! How near a straight move in joint space comes to a zone: the least distance as an exact fraction, the first point of
//! the way that has it, and the sides of the zone that prove it. A second function checks such a gap on its own.
#![tactic(auto)]

mod check;
mod gap;
mod laws;
mod line;
mod place;
mod product;
mod search;
mod side;

pub use check::gap_holds::gap_holds;
pub use gap::Gap;
pub use laws::{certificates_hold, gaps_tell_touching};
pub use search::gap_of::gap_of;
pub use side::Side;
