ghost use Rattle.std.specs.Prelude.{◌≡◌, ◌≤◌, IsTrue, nat_abs, ◌-ℤ◌};
ghost use Rattle.joint_planner.specs.Setpoints.{greatest_change};
ghost use Rattle.rapid_num.specs.Reach.{is_reachable};

use rapid_limits::{EXTERNAL_REACH, MOST_AXES};
use rapid_num::{Joints, Num};

/// The greatest change among the first `axes` axes, in thousandths of a degree.
pub(crate) fn greatest_change(start: &Joints, target: &Joints, axes: usize) -> u64
    requires axes { axes ≤ MOST_AXES }
    requires start { IsTrue (is_reachable axes start.now) }
    requires target { IsTrue (is_reachable axes target.now) }
    ensures change { result ≡ greatest_change axes start.now.axis target.now.axis }
    ensures at_most { result ≤ 200_000_000 }
{
    let mut greatest = 0;
    for k in 0..axes {
        greatest = change_of(start.axis[k], target.axis[k]).max(greatest);
    }
    greatest
}

/// How far an axis moves, in either direction.
fn change_of(start: Num, target: Num) -> u64
    requires start { nat_abs start ≤ EXTERNAL_REACH }
    requires target { nat_abs target ≤ EXTERNAL_REACH }
    ensures change { result ≡ nat_abs (target -ℤ start) }
    ensures at_most { result ≤ 200_000_000 }
{
    (target.thousandths() - start.thousandths()).unsigned_abs()
}
