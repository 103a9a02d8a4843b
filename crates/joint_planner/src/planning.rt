ghost use Rattle.std.specs.Prelude.{◌≡◌, ◌≤◌, IsTrue, pos, ◌≤ℤ◌, nat_abs};
ghost use Rattle.joint_planner.specs.Setpoints.{PlanData, setpoint_count};
ghost use Rattle.rapid_num.specs.Reach.{is_reachable};

use crate::change::greatest_change;
use crate::planned::Plan;
use rapid_limits::MOST_AXES;
use rapid_num::Joints;

/// Plans a move of an arm with that many axes by at most `cap` thousandths of a degree per axis and setpoint (this
/// product's own motion profile; RAPID Instructions: MoveAbsJ). Allocates nothing.
pub fn plan(start: &Joints, target: &Joints, cap: i64, axes: usize) -> Plan
    requires cap { pos 1 ≤ℤ cap }
    requires axes { axes ≤ MOST_AXES }
    requires start { IsTrue (is_reachable axes start.now) }
    requires target { IsTrue (is_reachable axes target.now) }
    ensures start { result.start ≡ start.now }
    ensures target { result.target ≡ target.now }
    ensures count { result.count ≡ setpoint_count axes start.now target.now (nat_abs cap) }
    ensures axes { result.axes ≡ axes }
{
    let steps = greatest_change(start, target, axes).div_ceil(cap as u64);
    Plan {
        start: *start,
        target: *target,
        count: steps.max(1) as u32,
        axes,
    }
}
