//! One core shared by many threads. Each actor has a pass and asks the core in its turn, so the calls of all passes
//! make one history.
#![tactic(auto)]

mod acted;
mod asking;
mod backoff;
mod boxed_core;
mod caller;
mod closing;
mod fed;
mod gate;
mod now;
mod opening;
mod part;
mod pass;
mod rose;
mod rule;
mod steps;
mod view;

pub use acted::Acted;
pub use fed::Fed;
pub use gate::Gate;
pub use now::Now;
pub use opening::open_gate;
pub use pass::Pass;
pub use rose::Rose;
