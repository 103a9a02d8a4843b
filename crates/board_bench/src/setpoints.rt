//! Moves of that many setpoints, and how many of these a zone stops: none.

use crate::six_axes::{zone, zone_of_last};
use crate::zoned_arm::ZonedArm;
use rapid_num::Shape;
use std::alloc::Global;

/// Bounds that axes 1 to 5 stay within, so that only axis 6, the last one, is outside the zone.
const BESIDE: [(i32, i32); 6] = [
    (-720_000, 720_000),
    (-720_000, 720_000),
    (-720_000, 720_000),
    (-720_000, 720_000),
    (-720_000, 720_000),
    (60_000, 90_000),
];

/// With ten zones of six axes.
pub(crate) fn under_zones_of_six(alloc: Global, setpoints: u32) -> u32 {
    stopped(alloc, 10, &zone(BESIDE), setpoints)
}

/// With ten zones of axis 6 only.
pub(crate) fn under_zones_of_last(alloc: Global, setpoints: u32) -> u32 {
    stopped(alloc, 10, &zone_of_last(BESIDE[5]), setpoints)
}

/// With no zone.
pub(crate) fn under_no_zone(alloc: Global, setpoints: u32) -> u32 {
    stopped(alloc, 0, &zone(BESIDE), setpoints)
}

/// With that many zones of a shape; 0 if out of memory.
fn stopped(alloc: Global, zones: u8, shape: &Shape, setpoints: u32) -> u32 {
    ZonedArm::new(alloc, zones, shape).map_or(0, |arm| arm.stops(setpoints))
}
