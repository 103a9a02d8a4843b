ghost use Rattle.std.specs.Prelude.{◌≡◌, ◌+◌, ◌≤◌, [], ◌++◌, length};
ghost use Rattle.history_text.specs.EventWords.{answer_words, zone_name_words};

use crate::counts::{push_counted, push_two};
use crate::names::Names;
use crate::places::push_place;
use crate::rooms::{ANSWER_BYTES, COUNTED_BYTES, LINE_BYTES};
use crate::signals::bit_name;
use arrayvec::ArrayString;
use rapid_model::{Answer, ZoneName};
use value_text::{push_value, truth_name};

/// Writes the words of an answer. Takes no memory.
pub fn answer_words(_names: &Names, answer: &Answer, line: &mut ArrayString<LINE_BYTES>)
    requires empty { line.old.bytes ≡ [] }
    ensures { line.new.bytes ≡ answer_words answer.now }
{
    push_answer(answer, line);
}

/// Appends the words of an answer.
pub(crate) fn push_answer(answer: &Answer, line: &mut ArrayString<LINE_BYTES>)
    requires room { length line.old.bytes + ANSWER_BYTES ≤ LINE_BYTES }
    ensures text { line.new.bytes ≡ line.old.bytes ++ answer_words answer.now }
    ensures short { length line.new.bytes ≤ length line.old.bytes + ANSWER_BYTES }
{
    match answer {
        Answer::Ok => line.push_str("Ok"),
        Answer::Go { seen } => push_counted("Go ", *seen, line),
        Answer::Trap { number, trap } => {
            line.push_str("Trap ");
            push_two(u32::from(*number), *trap, line);
        }
        Answer::Flood => line.push_str("Flood"),
        Answer::Val(value) => push_value(value, line),
        Answer::Yes(met) => line.push_str(truth_name(*met)),
        Answer::Bit(bit) => line.push_str(bit_name(*bit)),
        Answer::At(place) => push_place(place, line),
        Answer::Given => line.push_str("Given"),
        Answer::Stopped(zone) => {
            line.push_str("Stopped ");
            push_zone_name(*zone, line);
        }
        Answer::Number(number) => push_counted("Number ", u32::from(*number), line),
        Answer::Already => line.push_str("Already"),
        Answer::Unknown => line.push_str("Unknown"),
        Answer::NoMore => line.push_str("NoMore"),
        Answer::ZoneUsed => line.push_str("ZoneUsed"),
        Answer::ZoneFull => line.push_str("ZoneFull"),
        Answer::NoZone => line.push_str("NoZone"),
        Answer::Tied => line.push_str("Tied"),
        Answer::Met => line.push_str("Met"),
        Answer::Apart => line.push_str("Apart"),
    }
}

/// Appends a zone that stopped a move.
fn push_zone_name(zone: ZoneName, line: &mut ArrayString<LINE_BYTES>)
    requires room { length line.old.bytes + COUNTED_BYTES ≤ LINE_BYTES }
    ensures text { line.new.bytes ≡ line.old.bytes ++ zone_name_words zone }
    ensures short { length line.new.bytes ≤ length line.old.bytes + COUNTED_BYTES }
{
    match zone {
        ZoneName::Own(number) => push_counted("Own ", u32::from(number), line),
        ZoneName::Cell(number) => push_counted("Cell ", u32::from(number), line),
    }
}
