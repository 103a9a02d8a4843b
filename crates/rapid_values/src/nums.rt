//! Nums of a list, and six of them as the axes of a joint.

ghost use Rattle.std.specs.Prelude.{◌≡◌, pos, length, ◌++◌, if◌then◌else◌};
ghost use Rattle.rapid_values.specs.Values.{num_at, with_num};

use rapid_model::Value;
use rapid_num::{Joints, Num};

/// The num 0.
pub(crate) fn zero() -> Num
    ensures { result ≡ pos 0 }
{
    Num::new(0).unwrap()
}

/// Six nums as an array.
pub(crate) fn six(nums: &[Num]) -> [Num; 6]
    requires { length nums.now ≡ 6 }
    ensures { result ≡ nums.now }
{
    let mut axes = [nums[0]; 6];
    axes.copy_from_slice(nums);
    axes
}

/// The joints of an arm's six axes and six external axes.
pub(crate) fn joined(rob: &[Num], ext: &[Num]) -> Joints
    requires rob { length rob.now ≡ 6 }
    requires ext { length ext.now ≡ 6 }
    ensures { result ≡ record { axis = rob.now ++ ext.now } }
{
    let mut axis = [zero(); 12];
    let all = &mut axis[..];
    all[..6].copy_from_slice(rob);
    all[6..].copy_from_slice(ext);
    Joints { axis }
}

/// The num at an index, from 0; None exactly past the end.
pub(crate) fn num_at(nums: &[Num], index: usize) -> Option<Value>
    ensures { result ≡ num_at nums.now index }
{
    let num = nums.get(index)?;
    Some(Value::Num(*num))
}

/// Puts a num at an index of a list. Returns false exactly if the list has no such index or the value is not a num.
pub(crate) fn put_num(nums: &mut [Num], index: usize, new: &Value) -> bool
    ensures { with_num nums.old index new.now ≡ (if result then Some nums.new else None) }
{
    match new {
        Value::Num(num) if index < nums.len() => {
            nums[index] = *num;
            true
        }
        _ => false,
    }
}
