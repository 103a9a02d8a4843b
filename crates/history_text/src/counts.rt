//! Integers, alone or two with a space between, after a word.

ghost use Rattle.std.specs.Prelude.{◌≡◌, ◌+◌, ◌≤◌, ◌++◌, length, decimal};
ghost use Rattle.history_text.specs.EventWords.{two_words};

use crate::rooms::{COUNTED_BYTES, FRONT_BYTES, LINE_BYTES, TWO_BYTES};
use arrayvec::ArrayString;
use value_text::push_count;

/// Appends a word, with a space after it, and a number.
pub(crate) fn push_counted(word: &'static str, number: u32, line: &mut ArrayString<LINE_BYTES>)
    requires short { length word.now ≤ FRONT_BYTES }
    requires room { length line.old.bytes + COUNTED_BYTES ≤ LINE_BYTES }
    ensures text { line.new.bytes ≡ line.old.bytes ++ (word.now ++ decimal number) }
    ensures short { length line.new.bytes ≤ length line.old.bytes + COUNTED_BYTES }
{
    line.push_str(word);
    push_count(number as usize, line);
}

/// Appends two numbers, with a space between.
pub(crate) fn push_two(first: u32, second: u32, line: &mut ArrayString<LINE_BYTES>)
    requires room { length line.old.bytes + TWO_BYTES ≤ LINE_BYTES }
    ensures text { line.new.bytes ≡ line.old.bytes ++ two_words first second }
    ensures short { length line.new.bytes ≤ length line.old.bytes + TWO_BYTES }
{
    push_count(first as usize, line);
    line.push(' ');
    push_count(second as usize, line);
}
