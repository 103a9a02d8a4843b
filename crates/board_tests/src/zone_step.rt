use rapid_model::ZoneName;
use world_zones::{NoZone, TieFault, ZoneFault};

/// A step of a cell with zones, and finally its expected result. Angles are those of axis 1, in degrees.
#[derive(Clone, Copy)]
pub(crate) enum ZoneStep {
    /// The arm of task 0 gets a zone for a variable with this old number, temporary or stationary, from one angle to
    /// another.
    Set(u8, bool, (u32, u32), Result<u8, ZoneFault>),
    /// The arm of a task gets a temporary zone for a variable with this old number, from one angle to another, which sets
    /// a signal to 1.
    Tie(u32, u8, (u32, u32), u32, Result<u8, TieFault>),
    /// Whether a zone of an arm names the signal.
    Tied(u32, bool),
    /// What the zone of task 0 with this number sets while the arm is at an angle.
    Output(u8, u32, Option<(u32, bool)>),
    /// Its zone of this number is disabled.
    Disable(u8, Result<(), NoZone>),
    /// It is enabled.
    Enable(u8, Result<(), NoZone>),
    /// It is freed.
    Free(u8, Result<(), NoZone>),
    /// Signal 0, which has the other value, is set to this one.
    Signal(bool),
    /// The arm of a task moves from one angle to another: the zone that stops it.
    Go(u32, (u32, u32), Option<ZoneName>),
}
