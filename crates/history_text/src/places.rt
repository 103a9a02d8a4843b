//! Positions of an arm.

ghost use Rattle.std.specs.Prelude.{◌≡◌, ◌+◌, ◌≤◌, ◌∷◌, ◌++◌, length, position};
ghost use Rattle.std.specs.List.{position_or_len};
ghost use Rattle.rapid_num.specs.Absent.{is_absent};
ghost use Rattle.rapid_num.specs.NumText.{shortest_text};
ghost use Rattle.history_text.specs.EventWords.{axes_words, given_axes, nums_words};

use crate::rooms::{AXES_BYTES, LINE_BYTES};
use arrayvec::ArrayString;
use rapid_limits::MOST_AXES;
use rapid_num::{Joints, Num};
use value_text::{NUM_BYTES, push_num};

/// Appends the axes that are given, with spaces between.
pub(crate) fn push_place(place: &Joints, line: &mut ArrayString<LINE_BYTES>)
    requires room { length line.old.bytes + AXES_BYTES ≤ LINE_BYTES }
    ensures text { line.new.bytes ≡ line.old.bytes ++ axes_words place.now }
    ensures short { length line.new.bytes ≤ length line.old.bytes + AXES_BYTES }
{
    push_nums(given_axes(place), line);
}

/// The axes before the first one that is not given.
fn given_axes(place: &Joints) -> &[Num]
    ensures few { length result.now ≤ MOST_AXES }
    ensures same { result.now ≡ given_axes place.now }
{
    let axes = &place.axis[..];
    &axes[..given_count(axes)]
}

#[tactic(auto, using(crate::proofs::Positions::place_by_position, crate::proofs::Positions::place_within))]
fn given_count(axes: &[Num]) -> usize
    ensures count { result ≡ position_or_len is_absent axes.now }
    ensures within { result ≤ length axes.now }
{
    first_absent(axes).unwrap_or(axes.len())
}

fn first_absent(axes: &[Num]) -> Option<usize>
    ensures { result ≡ position is_absent axes.now }
{
    axes.iter().position(|axis| axis.is_absent())
}

/// Appends nums, with spaces between.
fn push_nums(nums: &[Num], line: &mut ArrayString<LINE_BYTES>)
    requires count { length nums.now ≤ MOST_AXES }
    requires room { length line.old.bytes + AXES_BYTES ≤ LINE_BYTES }
    ensures text { line.new.bytes ≡ line.old.bytes ++ nums_words nums.now }
    ensures short { length line.new.bytes ≤ length line.old.bytes + AXES_BYTES }
{
    if let [first, more @ ..] = nums {
        push_num(*first, line);
        for number in more {
            push_next(*number, line);
        }
    }
}

/// Appends a space and a num.
fn push_next(number: Num, line: &mut ArrayString<LINE_BYTES>)
    requires room { length line.old.bytes + NUM_BYTES + 1 ≤ LINE_BYTES }
    ensures text { line.new.bytes ≡ line.old.bytes ++ 32 ∷ shortest_text number }
    ensures short { length line.new.bytes ≤ length line.old.bytes + NUM_BYTES + 1 }
{
    line.push(' ');
    push_num(number, line);
}
