//! The arm of a task.

ghost use Rattle.std.specs.Prelude.{◌≡◌, ◌≤◌, codes, length, Some, None, if◌then◌else◌};
ghost use Rattle.toml.specs.View.{view};
ghost use Rattle.rapid_model.specs.ScriptData.{takes_axes};
ghost use Rattle.cell_script.specs.Keys.{at, value_of};
ghost use Rattle.cell_script.specs.Rows.{is_arm, arm_of, arm_at, start_at};
ghost use Rattle.cell_script.specs.Parts.{where_there};
ghost use Rattle.cell_script.specs.Gives.{Gives, view_keys};

use crate::angle::angles_at;
use crate::fault::ScriptFault;
use crate::keys::TableKeys;
use rapid_limits::{MOST_AXES, ROBOT_AXES};
use rapid_model::ScriptRule;
use rapid_num::{Joints, Num};
use std::alloc::Global;
use toml::Value;

/// Where an arm starts, and how many axes it has.
#[derive(Clone, Copy)]
pub(crate) struct Arm {
    pub(crate) start: Joints,
    pub(crate) axes: u8,
}

/// The arm of a task, if there is one.
pub(crate) fn arm_in(
    alloc: Global,
    keys: &TableKeys<'_>,
    version: u32,
) -> Result<Option<Arm>, ScriptFault>
    ensures { Gives (λ arm. arm) result (where_there (arm_at version (at (view_keys keys.now) (codes "arm"))) (value_of (view_keys keys.now) (codes "arm"))) }
{
    match keys.value("arm") {
        Some(arm) => Ok(Some(arm_at(alloc, keys, "arm", version, arm)?)),
        None => Ok(None),
    }
}

/// An angle in reach for each axis of an arm: six axes, and from version 2 on up to six external ones.
fn arm_at(
    alloc: Global,
    keys: &TableKeys<'_>,
    key: &str,
    version: u32,
    value: &Value,
) -> Result<Arm, ScriptFault>
    ensures { Gives (λ arm. arm) result (arm_at version (at (view_keys keys.now) key.now) (view value.now)) }
{
    let Some(angles) = angles_at(alloc, keys, key, value)? else {
        return Err(keys.broken(key, ScriptRule::Range));
    };
    match arm_from(version, &angles) {
        Some(arm) => Ok(arm),
        None => Err(keys.broken(key, ScriptRule::Range)),
    }
}

fn arm_from(version: u32, angles: &[Num]) -> Option<Arm>
    ensures { result ≡ (if is_arm version angles.now then Some (arm_of angles.now) else None) }
{
    let axes = angles.len();
    if axes < ROBOT_AXES || axes > MOST_AXES || !takes_axes(version, axes) {
        return None;
    }
    let start = start_at(angles);
    if !start.is_reachable(axes) {
        return None;
    }
    Some(Arm {
        start,
        axes: axes as u8,
    })
}

/// Whether an arm may have that many axes in this version. External axes require version 2 or later.
fn takes_axes(version: u32, axes: usize) -> bool
    ensures { result ≡ takes_axes version axes }
{
    version > 1 || axes <= ROBOT_AXES
}

/// The position at these angles. The axes that the arm does not have are absent, which is what 9E9 says (RAPID
/// Instructions, Functions and Data types: extjoint).
fn start_at(angles: &[Num]) -> Joints
    requires { length angles.now ≤ MOST_AXES }
    ensures { result ≡ start_at angles.now }
{
    let mut axis = [Num::new(9_000_000_000_000).unwrap(); MOST_AXES];
    axis[..angles.len()].copy_from_slice(angles);
    Joints { axis }
}
