//! Positions in a zone.

ghost use Rattle.std.specs.Prelude.{◌≡◌, ◌↔◌, IsTrue};
ghost use Rattle.joint_clip.specs.Lying.{all_within, is_within_bound, lies_in};
ghost use Rattle.joint_clip.specs.Touches.{Touches};

use rapid_limits::MOST_AXES;
use rapid_num::{Bound, Joints, Num, Shape};

/// Whether an arm at a position is in a zone. An Inside zone includes its bounds, an Outside zone does not (RAPID
/// Instructions: WZLimJointDef, WZDOSet). Allocates nothing.
pub fn lies_in(at: &Joints, shape: &Shape) -> bool
    ensures same { result ≡ lies_in shape.now at.now }
    ensures touched { IsTrue result ↔ Touches at.now at.now shape.now }
{
    let within = all_within(at, &shape.bounds);
    if shape.inside { within } else { !within }
}

/// Whether each axis of a position is within its bounds.
fn all_within(at: &Joints, bounds: &[Option<Bound>; MOST_AXES]) -> bool
    ensures { result ≡ all_within 0 bounds.now at.now }
{
    for axis in 0..MOST_AXES {
        if !is_within_bound(&bounds[axis], at.axis[axis]) {
            return false;
        }
    }
    true
}

/// Whether an angle is within the bounds of its axis, if it has any.
fn is_within_bound(bound: &Option<Bound>, angle: Num) -> bool
    ensures { result ≡ is_within_bound bound.now angle }
{
    match bound {
        Some(bound) => {
            let angle = angle.thousandths();
            angle >= bound.low.thousandths() && bound.high.thousandths() >= angle
        }
        None => true,
    }
}
