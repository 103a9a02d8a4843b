//! Nums in brackets.

ghost use Rattle.std.specs.Prelude.{◌≡◌, ◌+◌, ◌≤◌, ◌++◌, ◌∷◌, length};
ghost use Rattle.rapid_num.specs.NumText.{shortest_text};
ghost use Rattle.value_text.specs.ValueText.{nums_text};

use crate::num::push_num;
use crate::rooms::{NUM_BYTES, NUMS_BYTES};
use arrayvec::ArrayString;
use rapid_limits::ROBOT_AXES;
use rapid_num::Num;

/// Appends a comma and a num.
fn push_next<const N: usize>(number: Num, line: &mut ArrayString<N>)
    requires room { length line.old.bytes + NUM_BYTES + 1 ≤ N }
    ensures text { line.new.bytes ≡ line.old.bytes ++ 44 ∷ shortest_text number }
    ensures short { length line.new.bytes ≤ length line.old.bytes + NUM_BYTES + 1 }
{
    line.push(',');
    push_num(number, line);
}

/// Appends nums in brackets, with commas between.
pub(crate) fn push_nums<const N: usize>(nums: &[Num], line: &mut ArrayString<N>)
    requires count { length nums.now ≤ ROBOT_AXES }
    requires room { length line.old.bytes + NUMS_BYTES ≤ N }
    ensures text { line.new.bytes ≡ line.old.bytes ++ nums_text nums.now }
    ensures short { length line.new.bytes ≤ length line.old.bytes + NUMS_BYTES }
{
    line.push('[');
    if let [first, more @ ..] = nums {
        push_num(*first, line);
        for number in more {
            push_next(*number, line);
        }
    }
    line.push(']');
}
