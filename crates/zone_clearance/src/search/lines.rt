//! The lines of a zone's sides along a segment.

ghost use Rattle.std.specs.Prelude.{◌≡◌, ◌<◌};
ghost use Rattle.zone_clearance.specs.Premises.{AreInReach};
ghost use Rattle.zone_clearance.specs.SideLines.{AreLinesOf, IsLineOf, IsSide};
ghost use Rattle.zone_clearance.specs.Sides.{order_of};

use crate::line::Line;
use crate::side::Side;
use rapid_limits::MOST_AXES;
use rapid_num::{Bound, Joints};

/// The number of sides of a zone that names every axis.
pub(crate) const SIDES: usize = 2 * MOST_AXES + 1;

/// The lines of a zone's sides, in order, along the segment from `p` to `q`: `None` for a side that has none.
pub(crate) fn lines_of(
    inside: bool,
    p: &Joints,
    q: &Joints,
    bounds: &[Option<Bound>; MOST_AXES],
) -> [Option<Line>; SIDES]
    requires { AreInReach p.now q.now bounds.now }
    ensures { AreLinesOf inside p.now q.now bounds.now result }
{
    let mut lines = [None; SIDES];
    for number in 0..SIDES {
        lines[number] = numbered_line(inside, p, q, bounds, number);
    }
    lines
}

/// The line of the side with this number.
fn numbered_line(
    inside: bool,
    p: &Joints,
    q: &Joints,
    bounds: &[Option<Bound>; MOST_AXES],
    number: usize,
) -> Option<Line>
    requires known { number < SIDES }
    requires in_reach { AreInReach p.now q.now bounds.now }
    ensures { (side : Side) → IsSide side → order_of side ≡ number → IsLineOf inside p.now q.now bounds.now side result }
{
    if number == 0 {
        return inside.then_some(Line::zero());
    }
    let axis = (number - 1) / 2;
    let bound = bounds[axis]?;
    let (start, end) = (p.axis[axis], q.axis[axis]);
    if number % 2 == 1 {
        Some(Line::low(inside, &bound, start, end))
    } else {
        Some(Line::high(inside, &bound, start, end))
    }
}

/// The side with this number.
pub(crate) fn numbered_side(number: usize) -> Side
    requires { number < SIDES }
    ensures side { IsSide result }
    ensures order { order_of result ≡ number }
{
    if number == 0 {
        return Side::Zero;
    }
    let axis = ((number + 1) / 2) as u8;
    if number % 2 == 1 {
        Side::Low(axis)
    } else {
        Side::High(axis)
    }
}
