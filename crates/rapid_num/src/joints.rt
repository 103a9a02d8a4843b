ghost use Rattle.std.specs.Prelude.{◌≡◌};
ghost use Rattle.std.specs.List.{list_all};
ghost use Rattle.rapid_num.specs.Absent.{is_absent};
ghost use Rattle.rapid_num.specs.Reach.{is_in_reach, are_in_reach, is_reachable, is_position, reach_of};

use crate::num::Num;
use rapid_limits::{EXTERNAL_REACH, MOST_AXES, ROBOT_AXES, ROBOT_REACH};

/// The angles of twelve axes, in thousandths of a degree: `rax_1` to `rax_6`, then `eax_a` to `eax_f`. 9E9 means 'not
/// given' (RAPID Instructions, Functions and Data types: robjoint, extjoint).
#[derive(Clone, Copy, Debug, PartialEq, Eq)]
pub struct Joints {
    pub axis: [Num; MOST_AXES],
}

impl Joints {
    /// Whether the first `axes` axes are in reach: axes 1 to 6 within ±720 degrees, external axes within ±100,000
    /// degrees.
    pub fn is_reachable(&self, axes: usize) -> bool
        ensures { result ≡ is_reachable axes self.now }
    {
        let count = axes.min(MOST_AXES);
        are_in_reach(&self.axis[..count])
    }

    /// Whether this is a position of an arm with `axes` axes: each of those is in reach, and no other axis is given.
    pub fn is_position(&self, axes: usize) -> bool
        ensures { result ≡ is_position axes self.now }
    {
        let angles = &self.axis[..];
        let count = axes.min(MOST_AXES);
        self.is_reachable(axes) && none_is_given(&angles[count..])
    }
}

/// The greatest absolute angle of an axis, numbered from 0, in thousandths of a degree.
fn reach_of(axis: usize) -> u64
    ensures { result ≡ reach_of axis }
{
    if axis < ROBOT_AXES {
        ROBOT_REACH
    } else {
        EXTERNAL_REACH
    }
}

fn is_in_reach(axis: usize, angle: Num) -> bool
    ensures { result ≡ is_in_reach axis angle }
{
    angle.thousandths().unsigned_abs() <= reach_of(axis)
}

/// Whether the angles of the first axes are each in reach.
fn are_in_reach(angles: &[Num]) -> bool
    ensures { result ≡ are_in_reach 0 angles.now }
{
    for (axis, angle) in angles.iter().enumerate() {
        if !is_in_reach(axis, *angle) {
            return false;
        }
    }
    true
}

fn none_is_given(axes: &[Num]) -> bool
    ensures { result ≡ list_all is_absent axes.now }
{
    axes.iter().all(|axis| axis.is_absent())
}
