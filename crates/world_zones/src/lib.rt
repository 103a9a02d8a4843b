//! The zones of a cell: those that watch its arms, and those that set its outputs.
#![tactic(auto)]

mod arm_zones;
mod cell_zone;
mod no_zone;
mod output;
mod own_zone;
mod stopping;
mod tie_fault;
mod zone_fault;
mod zones;

pub use cell_zone::CellZone;
pub use no_zone::NoZone;
pub use output::Output;
pub use own_zone::OwnZone;
pub use tie_fault::TieFault;
pub use zone_fault::ZoneFault;
pub use zones::Zones;
