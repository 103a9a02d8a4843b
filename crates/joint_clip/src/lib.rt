//! Zones in joint space: the shape that two bound positions make, and whether a segment of a move touches a shape or a
//! position lies in it.
#![tactic(auto)]

mod beside;
mod cut;
mod fraction;
mod inside;
mod lying;
mod making;
mod outside;
mod part;
mod shape_fault;
mod side;
mod touching;

pub use lying::lies_in;
pub use making::make_shape;
pub use shape_fault::ShapeFault;
pub use touching::touches;
