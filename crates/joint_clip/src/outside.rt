//! Outside zones: an axis that goes past a bound is past it at one of the ends.

ghost use Rattle.std.specs.Prelude.{◌↔◌, IsTrue};
ghost use Rattle.joint_clip.specs.Touches.{LiesOutside, SomeFraction, IsBeyond, point_at, way_at};

use rapid_limits::MOST_AXES;
use rapid_num::{Bound, Joints, Num};

/// Whether a segment has a point where some named axis is past one of its bounds.
pub(crate) fn passes_outside(p: &Joints, q: &Joints, bounds: &[Option<Bound>; MOST_AXES]) -> bool
    ensures { IsTrue result ↔ SomeFraction (λ k m. LiesOutside bounds.now (point_at p.now q.now k m) m) }
{
    for axis in 0..MOST_AXES {
        if let Some(bound) = &bounds[axis] {
            if passes_beyond(p.axis[axis], q.axis[axis], bound) {
                return true;
            }
        }
    }
    false
}

/// Whether an axis that goes from `p` to `q` is past one of the bounds somewhere.
fn passes_beyond(p: Num, q: Num, bound: &Bound) -> bool
    ensures { IsTrue result ↔ SomeFraction (λ k m. IsBeyond bound.now (way_at p q k m) m) }
{
    is_beyond(p, bound) || is_beyond(q, bound)
}

/// Whether an angle is past one of the bounds; the bounds themselves are within.
fn is_beyond(angle: Num, bound: &Bound) -> bool
    ensures { IsTrue result ↔ IsBeyond bound.now angle 1 }
{
    let angle = angle.thousandths();
    angle < bound.low.thousandths() || bound.high.thousandths() < angle
}
