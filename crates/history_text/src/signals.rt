//! Signals, their values, and what interrupts are ordered on.

ghost use Rattle.std.specs.Prelude.{◌≡◌, ◌+◌, ◌≤◌, ◌++◌, length};
ghost use Rattle.history_text.specs.EventWords.{bit_words, set_words, signal_words, watched_words};

use crate::paths::push_pers;
use crate::rooms::{LINE_BYTES, PERS_BYTES, SET_BYTES};
use arrayvec::ArrayString;
use rapid_model::Watched;
use value_text::push_count;

/// Appends a signal of the cell: D and its number.
pub(crate) fn push_signal(signal: u32, line: &mut ArrayString<LINE_BYTES>)
    requires room { length line.old.bytes + PERS_BYTES ≤ LINE_BYTES }
    ensures text { line.new.bytes ≡ line.old.bytes ++ signal_words signal }
    ensures short { length line.new.bytes ≤ length line.old.bytes + PERS_BYTES }
{
    line.push('D');
    push_count(signal as usize, line);
}

/// The value of a signal.
pub(crate) fn bit_name(value: bool) -> &'static str
    ensures name { result.now ≡ bit_words value }
    ensures short { length result.now ≤ 1 }
{
    if value { "1" } else { "0" }
}

/// Appends a signal and a value of it.
pub(crate) fn push_set(signal: u32, value: bool, line: &mut ArrayString<LINE_BYTES>)
    requires room { length line.old.bytes + SET_BYTES ≤ LINE_BYTES }
    ensures text { line.new.bytes ≡ line.old.bytes ++ set_words signal value }
    ensures short { length line.new.bytes ≤ length line.old.bytes + SET_BYTES }
{
    push_signal(signal, line);
    line.push(' ');
    line.push_str(bit_name(value));
}

/// Appends what an interrupt is ordered on.
pub(crate) fn push_watched(on: Watched, line: &mut ArrayString<LINE_BYTES>)
    requires room { length line.old.bytes + SET_BYTES ≤ LINE_BYTES }
    ensures text { line.new.bytes ≡ line.old.bytes ++ watched_words on }
    ensures short { length line.new.bytes ≤ length line.old.bytes + SET_BYTES }
{
    match on {
        Watched::Signal { signal, value } => push_set(signal, value, line),
        Watched::Pers { pers } => push_pers(pers, line),
    }
}
