//! Inside zones: a segment that is not beside one is cut by the bounds of one axis after another.

ghost use Rattle.std.specs.Prelude.{◌↔◌, IsTrue};
ghost use Rattle.joint_clip.specs.Touches.{LiesInside, SomeFraction, point_at};
ghost use Rattle.joint_clip.specs.Parts.{IsPartWhere};

use crate::beside::passes_beside;
use crate::part::Part;
use rapid_limits::MOST_AXES;
use rapid_num::{Bound, Joints};

/// Whether a segment has a point where each named axis is within its bounds.
pub(crate) fn passes_inside(p: &Joints, q: &Joints, bounds: &[Option<Bound>; MOST_AXES]) -> bool
    ensures { IsTrue result ↔ SomeFraction (λ k m. LiesInside bounds.now (point_at p.now q.now k m) m) }
{
    if passes_beside(p, q, bounds) {
        return false;
    }
    part_inside(p, q, bounds).is_some()
}

/// The part of a segment where each named axis is within its bounds.
fn part_inside(p: &Joints, q: &Joints, bounds: &[Option<Bound>; MOST_AXES]) -> Option<Part>
    ensures { IsPartWhere result (λ k m. LiesInside bounds.now (point_at p.now q.now k m) m) }
{
    let mut part = Part::whole();
    for axis in 0..MOST_AXES {
        if let Some(bound) = bounds[axis] {
            part = part.within(bound, p.axis[axis], q.axis[axis])?;
        }
    }
    Some(part)
}
