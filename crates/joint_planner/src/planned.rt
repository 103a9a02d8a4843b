ghost use Rattle.std.specs.Prelude.{◌≡◌, ◌≤◌, IsTrue, take};
ghost use Rattle.joint_planner.specs.Setpoints.{PlanData, setpoint};
ghost use Rattle.rapid_num.specs.Reach.{is_reachable, is_position};

use crate::part::part_of_way;
use rapid_num::Joints;
use std::marker::Model;

/// A joint move: its start, its target, the number of setpoints, and how many axes the arm has. Contracts see these
/// four.
#[derive(Debug, Drop)]
pub struct Plan {
    pub(crate) start: Joints,
    pub(crate) target: Joints,
    pub(crate) count: u32,
    pub(crate) axes: usize,
}

impl Model for Plan {
    ghost use Rattle.joint_planner.specs.Setpoints.{PlanData, IsPlan};

    ghost Value = { PlanData };

    ghost view = { λ p. record { start = p.start; target = p.target; count = p.count; axes = p.axes } };

    ghost invariant = { λ p. IsPlan (record { start = p.start; target = p.target; count = p.count; axes = p.axes }) };
}

impl Plan {
    /// The number of setpoints of the move, at least 1.
    pub fn count(&self) -> u32
        ensures same { result ≡ self.now.count }
        ensures at_least_one { 1 ≤ result }
    {
        self.count
    }

    /// Setpoint `j`, counted from 1: each of the arm's axes at the thousandth nearest to that part of its way, halves
    /// away from zero, and in the last setpoint at the target. The other axes do not move.
    pub fn at(&self, j: u32) -> Joints
        requires first { 1 ≤ j }
        requires last { j ≤ self.now.count }
        ensures setpoint { result ≡ setpoint self.now.axes self.now.start self.now.target self.now.count j }

        // It is in reach, a position if the start is one, and in the end the target on the arm's axes.
        ensures reach { IsTrue (is_reachable self.now.axes result) }
        ensures position { IsTrue (is_position self.now.axes self.now.start) → IsTrue (is_position self.now.axes result) }
        ensures last_is_target { j ≡ self.now.count → take self.now.axes result.axis ≡ take self.now.axes self.now.target.axis }
    {
        let mut joints = self.start;
        for k in 0..self.axes {
            joints.axis[k] = part_of_way(self.start.axis[k], self.target.axis[k], j, self.count);
        }
        joints
    }
}
