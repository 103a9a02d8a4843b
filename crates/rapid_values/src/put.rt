//! Values with one part replaced.

ghost use Rattle.std.specs.Prelude.{◌≡◌};
ghost use Rattle.rapid_values.specs.Values.{put_part};

use crate::nums::{joined, put_num};
use rapid_model::{PartName, Value};

/// The value with one part replaced and the others unchanged. Axes are numbered from 0, those of an extjoint from 6.
/// None exactly if the value has no such part, or the new part does not have the part's type. The whole of a value may
/// be replaced by any value; there the caller compares the types (RAPID Kernel, assignment; RAPID Instructions,
/// Functions and Data types: robjoint, extjoint, jointtarget, speeddata, tasks).
pub fn with_part(value: Value, part: PartName, new: Value) -> Option<Value>
    ensures { result ≡ put_part value part new }
{
    match part {
        PartName::Whole => Some(new),
        PartName::Robax => with_robax(value, new),
        PartName::Extax => with_extax(value, new),
        PartName::Axis(number) => with_axis(value, number, new),
        PartName::SpeedPart(number) => with_speed_part(value, number, new),
        PartName::Taskname => with_taskname(value, new),
    }
}

/// A jointtarget with other robot axes.
fn with_robax(value: Value, new: Value) -> Option<Value>
    ensures { result ≡ put_part value PartName.Robax new }
{
    let Value::Target(joints) = value else {
        return None;
    };
    let Value::Rob(axes) = new else {
        return None;
    };
    let all = &joints.axis[..];
    Some(Value::Target(joined(&axes, &all[6..])))
}

/// A jointtarget with other external axes.
fn with_extax(value: Value, new: Value) -> Option<Value>
    ensures { result ≡ put_part value PartName.Extax new }
{
    let Value::Target(joints) = value else {
        return None;
    };
    let Value::Ext(axes) = new else {
        return None;
    };
    let all = &joints.axis[..];
    Some(Value::Target(joined(&all[..6], &axes)))
}

/// A value with one axis replaced; axes are numbered from 0, those of an extjoint from 6.
fn with_axis(value: Value, number: u8, new: Value) -> Option<Value>
    ensures { result ≡ put_part value (PartName.Axis number) new }
{
    match value {
        Value::Target(mut joints) => {
            put_num(&mut joints.axis, usize::from(number), &new).then_some(Value::Target(joints))
        }
        Value::Rob(mut axes) => {
            put_num(&mut axes, usize::from(number), &new).then_some(Value::Rob(axes))
        }
        Value::Ext(mut axes) => {
            let index = number.checked_sub(6)?;
            put_num(&mut axes, usize::from(index), &new).then_some(Value::Ext(axes))
        }
        _ => None,
    }
}

/// A speed with one part replaced; parts are numbered from 0.
fn with_speed_part(value: Value, number: u8, new: Value) -> Option<Value>
    ensures { result ≡ put_part value (PartName.SpeedPart number) new }
{
    match value {
        Value::Speed(mut nums) => {
            put_num(&mut nums, usize::from(number), &new).then_some(Value::Speed(nums))
        }
        _ => None,
    }
}

/// A task's name, replaced.
fn with_taskname(value: Value, new: Value) -> Option<Value>
    ensures { result ≡ put_part value PartName.Taskname new }
{
    match (value, new) {
        (Value::Text(_), Value::Text(text)) => Some(Value::Text(text)),
        _ => None,
    }
}
