ghost use Rattle.std.specs.Prelude.{◌≡◌, ◌+◌, ◌≤◌, ◌++◌, length};
ghost use Rattle.value_text.specs.ValueText.{target_text, truth_text, value_text};

use crate::num::push_num;
use crate::nums::push_nums;
use crate::quoted::push_quoted;
use crate::rooms::VALUE_BYTES;
use arrayvec::ArrayString;
use rapid_limits::ROBOT_AXES;
use rapid_model::Value;
use rapid_num::Joints;

/// Appends a value as RAPID writes it, without spaces: a num without needless digits, TRUE, FALSE, a string in quotes
/// with each quote and backslash doubled, or a list in brackets.
pub fn push_value<const N: usize>(value: &Value, line: &mut ArrayString<N>)
    requires room { length line.old.bytes + VALUE_BYTES ≤ N }
    ensures text { line.new.bytes ≡ line.old.bytes ++ value_text value.now }
    ensures short { length line.new.bytes ≤ length line.old.bytes + VALUE_BYTES }
{
    match value {
        Value::Num(number) => push_num(*number, line),
        Value::Bool(truth) => line.push_str(truth_name(*truth)),
        Value::Text(text) => push_quoted(text, line),
        Value::Rob(axes) => push_nums(axes, line),
        Value::Ext(axes) => push_nums(axes, line),
        Value::Target(joints) => push_target(joints, line),
        Value::Speed(parts) => push_nums(parts, line),
    }
}

/// TRUE or FALSE.
pub fn truth_name(truth: bool) -> &'static str
    ensures name { result.now ≡ truth_text truth }
    ensures short { length result.now ≤ 5 }
{
    if truth { "TRUE" } else { "FALSE" }
}

/// Appends a jointtarget: its robjoint and its extjoint in brackets.
fn push_target<const N: usize>(joints: &Joints, line: &mut ArrayString<N>)
    requires room { length line.old.bytes + VALUE_BYTES ≤ N }
    ensures text { line.new.bytes ≡ line.old.bytes ++ target_text joints.now.axis }
    ensures short { length line.new.bytes ≤ length line.old.bytes + VALUE_BYTES }
{
    let axes = &joints.axis[..];
    line.push('[');
    push_nums(&axes[..ROBOT_AXES], line);
    line.push(',');
    push_nums(&axes[ROBOT_AXES..], line);
    line.push(']');
}
