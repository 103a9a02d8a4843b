ghost use Rattle.std.specs.Prelude.{◌<◌};

use joint_planner::Plan;

/// A move between two of its setpoints: its plan, and how many of them were given, at least one fewer than there are.
#[derive(Drop)]
pub(crate) struct Moving {
    pub(crate) plan: Plan,
    pub(crate) given: u32,
    ghost left: { given < plan.count },
}
