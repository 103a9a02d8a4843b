//! The parts of a value.

ghost use Rattle.std.specs.Prelude.{◌≡◌};
ghost use Rattle.rapid_values.specs.Values.{part_of};

use crate::nums::{num_at, six};
use rapid_model::{PartName, Value};

/// A part of a value. Axes are numbered from 0, those of an extjoint from 6. None exactly if the value has no such part
/// (RAPID Instructions, Functions and Data types: robjoint, extjoint, jointtarget, speeddata, tasks).
pub fn part(value: &Value, part: PartName) -> Option<Value>
    ensures { result ≡ part_of value.now part }
{
    match part {
        PartName::Whole => Some(value.copy()),
        PartName::Robax => robax(value),
        PartName::Extax => extax(value),
        PartName::Axis(number) => axis(value, number),
        PartName::SpeedPart(number) => speed_part(value, number),
        PartName::Taskname => taskname(value),
    }
}

/// The robot axes of a jointtarget.
fn robax(value: &Value) -> Option<Value>
    ensures { result ≡ part_of value.now PartName.Robax }
{
    match value {
        Value::Target(joints) => Some(Value::Rob(six(&joints.axis[..6]))),
        _ => None,
    }
}

/// The external axes of a jointtarget.
fn extax(value: &Value) -> Option<Value>
    ensures { result ≡ part_of value.now PartName.Extax }
{
    match value {
        Value::Target(joints) => {
            let all = &joints.axis[..];
            Some(Value::Ext(six(&all[6..])))
        }
        _ => None,
    }
}

/// An axis, numbered from 0; those of an extjoint from 6.
fn axis(value: &Value, number: u8) -> Option<Value>
    ensures { result ≡ part_of value.now (PartName.Axis number) }
{
    match value {
        Value::Target(joints) => num_at(&joints.axis, usize::from(number)),
        Value::Rob(axes) => num_at(axes, usize::from(number)),
        Value::Ext(axes) => num_at(axes, usize::from(number.checked_sub(6)?)),
        _ => None,
    }
}

/// A part of a speed, from 0.
fn speed_part(value: &Value, number: u8) -> Option<Value>
    ensures { result ≡ part_of value.now (PartName.SpeedPart number) }
{
    match value {
        Value::Speed(nums) => num_at(nums, usize::from(number)),
        _ => None,
    }
}

/// The name of a task.
fn taskname(value: &Value) -> Option<Value>
    ensures { result ≡ part_of value.now PartName.Taskname }
{
    match value {
        Value::Text(text) => Some(Value::Text(text.copy())),
        _ => None,
    }
}
