ghost use Rattle.std.specs.Prelude.{◌↔◌, IsTrue};
ghost use Rattle.joint_clip.specs.Touches.{Touches};

use crate::inside::passes_inside;
use crate::outside::passes_outside;
use rapid_num::{Joints, Shape};

/// Whether an arm that moves straight from `p` to `q` in joint space enters a zone: whether some point at a fraction of
/// the segment, ends included, lies in the zone. An Inside zone includes its bounds, an Outside zone does not (RAPID
/// Instructions: WZLimJointDef, WZLimSup). Allocates nothing.
pub fn touches(p: &Joints, q: &Joints, shape: &Shape) -> bool
    ensures { IsTrue result ↔ Touches p.now q.now shape.now }
{
    if shape.inside {
        passes_inside(p, q, &shape.bounds)
    } else {
        passes_outside(p, q, &shape.bounds)
    }
}
