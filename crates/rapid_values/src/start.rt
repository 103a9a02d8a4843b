//! The start value of each type.

ghost use Rattle.std.specs.Prelude.{◌≡◌};
ghost use Rattle.rapid_values.specs.Values as given;

use crate::nums::zero;
use rapid_model::{Sort, Text, Value};
use rapid_num::Joints;

/// The value of a datum of this type before its first assignment: zero, FALSE or the empty string in every part. None
/// exactly for the types without values: intnum, syncident, shapedata, wztemporary and wzstationary (RAPID Kernel,
/// variable declarations; RAPID Instructions, Functions and Data types).
pub fn start_value(sort: Sort) -> Option<Value>
    ensures { result ≡ given.start_value sort }
{
    let zero = zero();
    match sort {
        Sort::Num => Some(Value::Num(zero)),
        Sort::Bool => Some(Value::Bool(false)),
        Sort::Text | Sort::Tasks => Some(Value::Text(Text::new())),
        Sort::RobJoint => Some(Value::Rob([zero; 6])),
        Sort::ExtJoint => Some(Value::Ext([zero; 6])),
        Sort::JointTarget => Some(Value::Target(Joints { axis: [zero; 12] })),
        Sort::SpeedData => Some(Value::Speed([zero; 4])),
        _ => None,
    }
}
