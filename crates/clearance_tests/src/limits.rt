//! What the numbers of a segment, a zone and a gap are limited to.

ghost use Rattle.std.specs.Prelude.{◌≡◌, ◌≤◌, IsTrue, is_some, nat_abs};
ghost use Rattle.std.specs.List.{list_any};
ghost use Rattle.rapid_limits.specs.declared.TheConstants.{EXTERNAL_REACH};
ghost use Rattle.zone_clearance.specs.Premises.{AreInReach, IsInReach, IsSmall};

use rapid_limits::EXTERNAL_REACH;
use rapid_num::{Bound, Joints, Num};
use zone_clearance::Gap;

pub(crate) fn names_an_axis(bounds: &[Option<Bound>]) -> bool
    ensures { result ≡ list_any is_some bounds.now }
{
    bounds.iter().any(|bound| bound.is_some())
}

/// Whether the bounds and the angles of each named axis are in reach.
pub(crate) fn are_in_reach(p: &Joints, q: &Joints, bounds: &[Option<Bound>; 12]) -> bool
    ensures { IsTrue result → AreInReach p.now q.now bounds.now }
{
    for axis in 0..12 {
        if let Some(bound) = bounds[axis] {
            if !axis_is_in_reach(bound, p.axis[axis], q.axis[axis]) {
                return false;
            }
        }
    }
    true
}

fn axis_is_in_reach(bound: Bound, p: Num, q: Num) -> bool
    ensures { IsTrue result → IsInReach bound p q }
{
    is_in_reach(bound.low) && is_in_reach(bound.high) && is_in_reach(p) && is_in_reach(q)
}

fn is_in_reach(angle: Num) -> bool
    ensures { IsTrue result → nat_abs angle ≤ EXTERNAL_REACH }
{
    angle.thousandths().unsigned_abs() <= EXTERNAL_REACH
}

/// Whether the numbers of a gap are below 2^60 in size.
pub(crate) fn is_small(gap: &Gap) -> bool
    ensures { IsTrue result → IsSmall gap.now }
{
    let most = 1 << 60;
    gap.top.unsigned_abs() < most
        && gap.bottom.unsigned_abs() < most
        && gap.at_top.unsigned_abs() < most
        && gap.at_bottom.unsigned_abs() < most
}
