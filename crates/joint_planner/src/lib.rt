//! The setpoints of a joint move, each computed on demand.
#![tactic(auto)]

mod change;
mod laws;
mod part;
mod planned;
mod planning;

pub use laws::caps_hold;
pub use planned::Plan;
pub use planning::plan;
