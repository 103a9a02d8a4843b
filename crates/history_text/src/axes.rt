ghost use Rattle.std.specs.Prelude.{◌≡◌, ◌+◌, ◌≤◌, ◌∷◌, ◌++◌, length, take};
ghost use Rattle.rapid_num.specs.NumText.{fixed_text};
ghost use Rattle.history_text.specs.Lines.{number_words, task_axes};

use crate::rooms::{AXES_BYTES, LINE_BYTES};
use arrayvec::ArrayString;
use rapid_limits::MOST_AXES;
use rapid_model::TaskRow;
use rapid_num::{Joints, Num, push_fixed};
use value_text::NUM_BYTES;

/// The number of axes of a task's arm, 0 without an arm.
pub(crate) fn axes_of(tasks: &[TaskRow], actor: u32) -> u8
    ensures { result ≡ task_axes tasks.now actor }
{
    match tasks.get(actor as usize) {
        Some(row) => row.axes,
        None => 0,
    }
}

/// Appends the first `axes` axes in degrees, each after a space.
pub(crate) fn push_axes(axes: u8, to: &Joints, line: &mut ArrayString<LINE_BYTES>)
    requires room { length line.old.bytes + AXES_BYTES ≤ LINE_BYTES }
    ensures text { line.new.bytes ≡ line.old.bytes ++ number_words (take axes to.now.axis) }
    ensures short { length line.new.bytes ≤ length line.old.bytes + AXES_BYTES }
{
    for axis in first_axes(axes, to) {
        push_number(*axis, line);
    }
}

fn first_axes(axes: u8, to: &Joints) -> &[Num]
    ensures few { length result.now ≤ MOST_AXES }
    ensures same { result.now ≡ take axes to.now.axis }
{
    let angles = &to.axis[..];
    let count = usize::from(axes).min(angles.len());
    &angles[..count]
}

/// Appends a space and the number with three decimals.
fn push_number(number: Num, line: &mut ArrayString<LINE_BYTES>)
    requires room { length line.old.bytes + NUM_BYTES + 1 ≤ LINE_BYTES }
    ensures text { line.new.bytes ≡ line.old.bytes ++ 32 ∷ fixed_text number }
    ensures short { length line.new.bytes ≤ length line.old.bytes + NUM_BYTES + 1 }
{
    line.push(' ');
    push_fixed(number, line);
}
