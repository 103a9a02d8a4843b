ghost use Rattle.std.specs.Prelude.{◌↔◌, option_copied, IsTrue};
ghost use Rattle.world_zones.specs.First.{Stops};

use joint_clip::touches;
use rapid_num::{Joints, Shape};

/// Whether there is a shape that the segment touches.
pub(crate) fn stops(shape: Option<&Shape>, p: &Joints, q: &Joints) -> bool
    ensures { IsTrue result ↔ Stops p.now q.now (option_copied shape.entry) }
{
    match shape {
        Some(shape) => touches(p, q, shape),
        None => false,
    }
}
