ghost use Rattle.std.specs.Prelude.{◌≡◌, ◌+◌, ◌≤◌, [], ◌++◌, length};
ghost use Rattle.history_text.specs.EventWords.{path_words, request_words, said_words, single_words};

use crate::counts::{push_counted, push_two};
use crate::fate_line::push_fate;
use crate::names::Names;
use crate::paths::push_path;
use crate::places::push_place;
use crate::rooms::{
    AT_BYTES, FRONT_BYTES, LINE_BYTES, ORDER_BYTES, REQUEST_BYTES, SAID_BYTES, SINGLE_BYTES,
    TAIL_BYTES, WRITTEN_BYTES,
};
use crate::shapes::push_zone;
use crate::signals::{push_set, push_signal, push_watched};
use arrayvec::ArrayString;
use rapid_model::{Path, Request, Tail, Text, Value, Watched};
use value_text::{push_num, push_value, truth_name};

/// Writes the words of a request. Takes no memory.
pub fn request_words(_names: &Names, request: &Request, line: &mut ArrayString<LINE_BYTES>)
    requires empty { line.old.bytes ≡ [] }
    ensures { line.new.bytes ≡ request_words request.now }
{
    push_request(request, line);
}

/// Appends the words of a request.
pub(crate) fn push_request(request: &Request, line: &mut ArrayString<LINE_BYTES>)
    requires room { length line.old.bytes + REQUEST_BYTES ≤ LINE_BYTES }
    ensures text { line.new.bytes ≡ line.old.bytes ++ request_words request.now }
    ensures short { length line.new.bytes ≤ length line.old.bytes + REQUEST_BYTES }
{
    match request {
        Request::Look => line.push_str("Look"),
        Request::ReadP { pers, path } => push_at("ReadP ", *pers, *path, line),
        Request::WriteP { pers, path, value } => push_written(*pers, *path, value, line),
        Request::TestSet { pers, path } => push_at("TestSet ", *pers, *path, line),
        Request::ReadS { signal } => {
            line.push_str("ReadS ");
            push_signal(*signal, line);
        }
        Request::WriteS { signal, value } => {
            line.push_str("WriteS ");
            push_set(*signal, *value, line);
        }
        Request::Position => line.push_str("Position"),
        Request::Setpoint { to } => {
            line.push_str("Setpoint ");
            push_place(to, line);
        }
        Request::Connect { old, trap } => {
            line.push_str("Connect ");
            push_two(u32::from(*old), *trap, line);
        }
        Request::Order { number, on, single } => push_order(*number, *on, *single, line),
        Request::Sleep { number } => push_counted("Sleep ", u32::from(*number), line),
        Request::Watch { number } => push_counted("Watch ", u32::from(*number), line),
        Request::Delete { number } => push_counted("Delete ", u32::from(*number), line),
        Request::Disable => line.push_str("Disable"),
        Request::Enable => line.push_str("Enable"),
        Request::Leave => line.push_str("Leave"),
        Request::ZoneSet {
            old,
            temporary,
            shape,
        } => {
            line.push_str("ZoneSet ");
            push_zone(*old, *temporary, shape, line);
        }
        Request::ZoneTie {
            old,
            temporary,
            shape,
            signal,
            value,
        } => {
            line.push_str("ZoneTie ");
            push_zone(*old, *temporary, shape, line);
            line.push(' ');
            push_set(*signal, *value, line);
        }
        Request::ZoneOn { zone } => push_counted("ZoneOn ", u32::from(*zone), line),
        Request::ZoneOff { zone } => push_counted("ZoneOff ", u32::from(*zone), line),
        Request::ZoneFree { zone } => push_counted("ZoneFree ", u32::from(*zone), line),
        Request::Arrive { meeting, tasks } => {
            line.push_str("Arrive ");
            push_two(*meeting, u32::from(*tasks), line);
        }
        Request::Hold { seen } => push_counted("Hold ", *seen, line),
        Request::Rise => line.push_str("Rise"),
        Request::Input { index } => push_counted("Input ", *index, line),
        Request::Say { text, tail } => push_said(text, tail, line),
        Request::End { fate } => {
            line.push_str("End ");
            push_fate(*fate, line);
        }
    }
}

/// Appends a word, with a space after it, and a part of a persistent.
fn push_at(word: &'static str, pers: u32, path: Path, line: &mut ArrayString<LINE_BYTES>)
    requires short { length word.now ≤ FRONT_BYTES }
    requires room { length line.old.bytes + AT_BYTES ≤ LINE_BYTES }
    ensures text { line.new.bytes ≡ line.old.bytes ++ (word.now ++ path_words pers path) }
    ensures short { length line.new.bytes ≤ length line.old.bytes + AT_BYTES }
{
    line.push_str(word);
    push_path(pers, path, line);
}

/// Appends the words of a WriteP.
fn push_written(pers: u32, path: Path, value: &Value, line: &mut ArrayString<LINE_BYTES>)
    requires room { length line.old.bytes + WRITTEN_BYTES ≤ LINE_BYTES }
    ensures text { line.new.bytes ≡ line.old.bytes ++ request_words (Request.WriteP pers path value.now) }
    ensures short { length line.new.bytes ≤ length line.old.bytes + WRITTEN_BYTES }
{
    push_at("WriteP ", pers, path, line);
    line.push(' ');
    push_value(value, line);
}

/// Appends the words of an Order.
fn push_order(number: u8, on: Watched, single: bool, line: &mut ArrayString<LINE_BYTES>)
    requires room { length line.old.bytes + ORDER_BYTES ≤ LINE_BYTES }
    ensures text { line.new.bytes ≡ line.old.bytes ++ request_words (Request.Order number on single) }
    ensures short { length line.new.bytes ≤ length line.old.bytes + ORDER_BYTES }
{
    push_counted("Order ", u32::from(number), line);
    line.push(' ');
    push_watched(on, line);
    line.push_str(single_name(single));
}

fn single_name(single: bool) -> &'static str
    ensures name { result.now ≡ single_words single }
    ensures short { length result.now ≤ SINGLE_BYTES }
{
    if single { " Single" } else { "" }
}

/// Appends the words of a Say.
fn push_said(text: &Text, tail: &Tail, line: &mut ArrayString<LINE_BYTES>)
    requires room { length line.old.bytes + SAID_BYTES ≤ LINE_BYTES }
    ensures text { line.new.bytes ≡ line.old.bytes ++ request_words (Request.Say text.now tail.now) }
    ensures short { length line.new.bytes ≤ length line.old.bytes + SAID_BYTES }
{
    line.push_str("Say ");
    push_value(&Value::Text(text.copy()), line);
    push_said_tail(tail, line);
}

/// Appends the tail of a text, after a space.
fn push_said_tail(tail: &Tail, line: &mut ArrayString<LINE_BYTES>)
    requires room { length line.old.bytes + TAIL_BYTES ≤ LINE_BYTES }
    ensures text { line.new.bytes ≡ line.old.bytes ++ said_words tail.now }
    ensures short { length line.new.bytes ≤ length line.old.bytes + TAIL_BYTES }
{
    match tail {
        Tail::None => {}
        Tail::Num(number) => {
            line.push(' ');
            push_num(*number, line);
        }
        Tail::Bool(truth) => {
            line.push(' ');
            line.push_str(truth_name(*truth));
        }
    }
}
