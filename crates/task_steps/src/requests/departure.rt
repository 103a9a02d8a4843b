ghost use Rattle.std.specs.Prelude.{IsTrue};
ghost use Rattle.rapid_num.specs.Reach.{is_reachable};

use rapid_num::{Joints, Num};

/// A move that waits for the arm's position: the number of axes of the arm, the target, which is in reach for each of
/// them, and the speed in thousandths of a degree per setpoint.
#[derive(Drop)]
pub struct Departure {
    pub axes: u8,
    pub target: Joints,
    pub speed: Num,
    ghost reachable: { IsTrue (is_reachable axes target) },
}
