//! Values of record types from their components.

ghost use Rattle.std.specs.Prelude.{◌≡◌, ℤ, List, length, if◌then◌else◌};
ghost use Rattle.rapid_model.specs.declared.value.Value.{Value};
ghost use Rattle.rapid_values.specs.Values.{made_of, nums_of, so_many};

use crate::nums::{joined, zero};
use rapid_model::{Sort, Value};
use rapid_num::Num;

/// The value of a record type with these components, in order. None exactly if the type is not a record, or the number
/// or the types of the components are wrong (RAPID Kernel, aggregates; RAPID Instructions, Functions and Data types:
/// robjoint, extjoint, jointtarget, speeddata, tasks).
pub fn record_of(sort: Sort, parts: &[Value]) -> Option<Value>
    ensures { result ≡ made_of sort parts.now }
{
    match sort {
        Sort::RobJoint => {
            let mut axes = [zero(); 6];
            fill(&mut axes, parts).then_some(Value::Rob(axes))
        }
        Sort::ExtJoint => {
            let mut axes = [zero(); 6];
            fill(&mut axes, parts).then_some(Value::Ext(axes))
        }
        Sort::SpeedData => {
            let mut nums = [zero(); 4];
            fill(&mut nums, parts).then_some(Value::Speed(nums))
        }
        Sort::JointTarget => target_of(parts),
        Sort::Tasks => task_of(parts),
        _ => None,
    }
}

/// Overwrites a list with the nums of values. Returns false exactly if there are not as many values as nums in the
/// list, or not all of them are nums.
fn fill(nums: &mut [Num], parts: &[Value]) -> bool
    ensures { (make : List ℤ → Value) → so_many (length nums.old) make (nums_of parts.now) ≡ (if result then Some (make nums.new) else None) }
{
    if parts.len() != nums.len() {
        return false;
    }
    for (index, part) in parts.iter().enumerate() {
        let Value::Num(num) = part else {
            return false;
        };
        nums[index] = *num;
    }
    true
}

/// A jointtarget of a robjoint and an extjoint.
fn target_of(parts: &[Value]) -> Option<Value>
    ensures { result ≡ made_of Sort.JointTarget parts.now }
{
    match parts {
        [Value::Rob(rob), Value::Ext(ext)] => Some(Value::Target(joined(rob, ext))),
        _ => None,
    }
}

/// A value of type tasks from a string.
fn task_of(parts: &[Value]) -> Option<Value>
    ensures { result ≡ made_of Sort.Tasks parts.now }
{
    match parts {
        [Value::Text(text)] => Some(Value::Text(text.copy())),
        _ => None,
    }
}
