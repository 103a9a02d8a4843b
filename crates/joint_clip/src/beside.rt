//! Inside zones that a segment is beside: an axis that is past a bound at both ends is past it all the way.

ghost use Rattle.std.specs.Prelude.{◌↔◌, IsTrue};
ghost use Rattle.joint_clip.specs.Beside.{IsBeside, PassesBeside};

use rapid_limits::MOST_AXES;
use rapid_num::{Bound, Joints, Num};

/// Whether some named axis is past the same bound at both ends of a segment.
pub(crate) fn passes_beside(p: &Joints, q: &Joints, bounds: &[Option<Bound>; MOST_AXES]) -> bool
    ensures { IsTrue result ↔ PassesBeside bounds.now p.now q.now }
{
    for axis in 0..MOST_AXES {
        if let Some(bound) = &bounds[axis] {
            if is_beside(p.axis[axis], q.axis[axis], bound) {
                return true;
            }
        }
    }
    false
}

/// Whether two angles are past the same bound.
fn is_beside(p: Num, q: Num, bound: &Bound) -> bool
    ensures { IsTrue result ↔ IsBeside bound.now p q }
{
    let (p, q) = (p.thousandths(), q.thousandths());
    p.max(q) < bound.low.thousandths() || bound.high.thousandths() < p.min(q)
}
