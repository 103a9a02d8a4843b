//! What values are, if they are what an operation expects.

ghost use Rattle.std.specs.Prelude.{◌≡◌};
ghost use Rattle.rapid_meaning.specs.Doings.{or_misfit};
ghost use Rattle.rapid_meaning.specs.Values.{bit_in, target_in, text_in, tool_speed_in, truth_in};
ghost use Rattle.task_steps.specs.Alike.{tested};

use function_values::num_of;
use rapid_model::{Fault, Text, Value};
use rapid_num::{Joints, Num};

/// A bool.
pub(crate) fn truth_of(value: &Value) -> Option<bool>
    ensures { truth_in value.now ≡ or_misfit result }
{
    match value {
        Value::Bool(truth) => Some(*truth),
        _ => None,
    }
}

/// A text.
pub(crate) fn text_of(value: Value) -> Option<Text>
    ensures { text_in value ≡ or_misfit result }
{
    match value {
        Value::Text(text) => Some(text),
        _ => None,
    }
}

/// A target.
pub(crate) fn target_of(value: &Value) -> Option<Joints>
    ensures { target_in value.now ≡ or_misfit result }
{
    match value {
        Value::Target(joints) => Some(*joints),
        _ => None,
    }
}

/// The speed of the tool, the first part of a speed.
pub(crate) fn tool_speed_of(value: &Value) -> Option<Num>
    ensures { tool_speed_in value.now ≡ or_misfit result }
{
    match value {
        Value::Speed(parts) => Some(parts[0]),
        _ => None,
    }
}

/// The value of a signal, 0 or 1. The error is the fault of any other num.
pub(crate) fn bit_of(value: &Value) -> Option<Result<bool, Fault>>
    ensures { bit_in value.now ≡ tested result }
{
    let thousandths = num_of(value)?.thousandths();
    if thousandths == 0 {
        Some(Ok(false))
    } else if thousandths == 1000 {
        Some(Ok(true))
    } else {
        Some(Err(Fault::SignalValue))
    }
}
