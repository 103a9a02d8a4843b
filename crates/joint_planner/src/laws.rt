ghost use Rattle.std.specs.Prelude.{◌≡◌, ◌⊎◌, ◌≤◌, ℕ, ◌-◌, ◌*◌, ℤ, ◌-ℤ◌, nat_abs};
ghost use Rattle.rapid_num.specs.declared.joints.Joints.{Joints};
ghost use Rattle.joint_planner.specs.Caps.{Goes, Outruns};
ghost use Rattle.joint_planner.specs.Setpoints.{setpoint_count};

/// A law: a move of an arm with that many axes has exactly as many setpoints as its cap needs. No axis moves by more
/// than the cap times that number; with one setpoint fewer, if there is more than one, some axis would.
pub fn caps_hold()
    ensures enough { (axes : ℕ) (start target : Joints) (cap axis : ℕ) (from to : ℤ) → 1 ≤ cap → Goes axes start target axis from to → nat_abs (to -ℤ from) ≤ setpoint_count axes start target cap * cap }
    ensures needed { (axes : ℕ) (start target : Joints) (cap : ℕ) → 1 ≤ cap → (setpoint_count axes start target cap ≡ 1) ⊎ Outruns axes start target ((setpoint_count axes start target cap - 1) * cap) }
{}
