use crate::six_axes::{position, zone};
use joint_clip::touches;

/// Bounds of which each axis cuts off more at both ends than the one before.
const NARROWING: [(i32, i32); 6] = [
    (-6_000, 6_000),
    (-5_000, 5_000),
    (-4_000, 4_000),
    (-3_000, 3_000),
    (-2_000, 2_000),
    (-1_000, 1_000),
];

/// How many of that many segments touch a zone: all do, and both bounds of each axis cut them.
pub(crate) fn touching(times: u32) -> u32 {
    let shape = zone(NARROWING);
    let end = position([10_000; 6]);
    let mut count = 0_u32;
    for segment in 0..times {
        let start = position([-10_000 - (segment % 1_000) as i32; 6]);
        if touches(&start, &end, &shape) {
            count = count.saturating_add(1);
        }
    }
    count
}
