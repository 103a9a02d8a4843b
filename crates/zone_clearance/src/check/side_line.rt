ghost use Rattle.std.specs.Prelude.{◌≡◌, None, MatchOption};
ghost use Rattle.zone_clearance.specs.Lines.{bound_of};
ghost use Rattle.zone_clearance.specs.Premises.{AreInReach};
ghost use Rattle.zone_clearance.specs.SideLines.{IsLineOf, IsNamedAxis};

use crate::line::Line;
use crate::side::Side;
use rapid_limits::MOST_AXES;
use rapid_num::{Bound, Joints, Num, Shape};

/// The line of a side along the segment from `p` to `q`, or `None` if the side has none.
pub(crate) fn side_line(p: &Joints, q: &Joints, shape: &Shape, side: Side) -> Option<Line>
    requires { AreInReach p.now q.now shape.now.bounds }
    ensures { IsLineOf shape.now.inside p.now q.now shape.now.bounds side result }
{
    match side {
        Side::Zero => shape.inside.then_some(Line::zero()),
        Side::Low(axis) => {
            let named = named_axis(p, q, &shape.bounds, axis)?;
            Some(Line::low(shape.inside, &named.bound, named.start, named.end))
        }
        Side::High(axis) => {
            let named = named_axis(p, q, &shape.bounds, axis)?;
            Some(Line::high(shape.inside, &named.bound, named.start, named.end))
        }
    }
}

/// A named axis: its bounds, and its angles at both ends of the segment.
#[derive(Clone, Copy)]
struct NamedAxis {
    bound: Bound,
    start: Num,
    end: Num,
}

/// The axis with this number, counted from 1, or `None` if it is not named.
fn named_axis(
    p: &Joints,
    q: &Joints,
    bounds: &[Option<Bound>; MOST_AXES],
    axis: u8,
) -> Option<NamedAxis>
    requires { AreInReach p.now q.now bounds.now }
    ensures { MatchOption result (bound_of bounds.now axis ≡ None) (λ named. IsNamedAxis p.now q.now bounds.now axis named) }
{
    let index = usize::from(axis).checked_sub(1)?;
    if index >= MOST_AXES {
        return None;
    }
    let bound = bounds[index]?;
    Some(NamedAxis {
        bound,
        start: p.axis[index],
        end: q.axis[index],
    })
}
