//! Texts to the operator.

ghost use Rattle.std.specs.Prelude.{◌≡◌, ◌+◌, ◌≤◌, ◌++◌, length};
ghost use Rattle.history_text.specs.Lines.{tail_words};

use crate::rooms::LINE_BYTES;
use arrayvec::ArrayString;
use rapid_limits::LONGEST_STRING;
use rapid_model::{Tail, Text};
use std::str;
use value_text::{NUM_BYTES, push_num, truth_name};

/// Appends the bytes of a text.
#[tactic(auto, using(value_text::proofs::Printable::utf8_from_printable))]
pub(crate) fn push_text(text: &Text, line: &mut ArrayString<LINE_BYTES>)
    requires room { length line.old.bytes + LONGEST_STRING ≤ LINE_BYTES }
    ensures text { line.new.bytes ≡ line.old.bytes ++ text.now }
    ensures short { length line.new.bytes ≤ length line.old.bytes + LONGEST_STRING }
{
    line.push_str(str::from_utf8(text.bytes()).unwrap());
}

/// Appends the tail of a text: a num without unnecessary digits, or a truth value.
pub(crate) fn push_tail(tail: &Tail, line: &mut ArrayString<LINE_BYTES>)
    requires room { length line.old.bytes + NUM_BYTES ≤ LINE_BYTES }
    ensures text { line.new.bytes ≡ line.old.bytes ++ tail_words tail.now }
    ensures short { length line.new.bytes ≤ length line.old.bytes + NUM_BYTES }
{
    match tail {
        Tail::None => {}
        Tail::Num(number) => push_num(*number, line),
        Tail::Bool(truth) => line.push_str(truth_name(*truth)),
    }
}
