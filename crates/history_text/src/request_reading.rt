//! Reading requests.

ghost use Rattle.std.specs.Prelude.{◌≡◌};
ghost use Rattle.std.specs.Option.{option_map};
ghost use Rattle.history_text.specs.Named.{view_names};
ghost use Rattle.history_text.specs.EventReading.{arrive_at, connect_at, course_request_at, interrupt_request_at, kind_at, order_at, request_at, said_at, set_zone_at, tail_at, tie_at, written_at, zone_at, zone_request_at};

use crate::fate_reading::fate_at;
use crate::names::Names;
use crate::numbers::{next_num, u8_at, u16_at, u32_at};
use crate::part_sorts::part_value_at;
use crate::path_reading::path_at;
use crate::quotes::quoted_at;
use crate::shape_reading::shape_at;
use crate::signal_reading::{set_at, signal_at, single_at, watched_at};
use crate::value_reading::place_at;
use crate::words::after_word;
use rapid_model::{Request, Tail};
use rapid_num::Shape;

/// A request by its words.
#[tactic(auto, unfolding(crate::specs::EventReading::request_at))]
pub(crate) fn request_at<'a>(names: &Names, text: &'a [u8]) -> Option<(Request, &'a [u8])>
    ensures { option_map (λ x. (x.0, x.1.now)) result ≡ request_at (view_names names.now) text.now }
{
    if let Some(rest) = after_word(text, b"Look") {
        return Some((Request::Look, rest));
    }
    if let Some(rest) = after_word(text, b"ReadP ") {
        let ((pers, path), rest) = path_at(rest)?;
        return Some((Request::ReadP { pers, path }, rest));
    }
    if let Some(rest) = after_word(text, b"WriteP ") {
        return written_at(names, rest);
    }
    if let Some(rest) = after_word(text, b"TestSet ") {
        let ((pers, path), rest) = path_at(rest)?;
        return Some((Request::TestSet { pers, path }, rest));
    }
    if let Some(rest) = after_word(text, b"ReadS ") {
        let (signal, rest) = signal_at(rest)?;
        return Some((Request::ReadS { signal }, rest));
    }
    if let Some(rest) = after_word(text, b"WriteS ") {
        let ((signal, value), rest) = set_at(rest)?;
        return Some((Request::WriteS { signal, value }, rest));
    }
    course_request_at(text)
}

/// A part of a persistent, and a value of its type.
#[tactic(auto, unfolding(crate::specs::EventReading::written_at))]
fn written_at<'a>(names: &Names, text: &'a [u8]) -> Option<(Request, &'a [u8])>
    ensures { option_map (λ x. (x.0, x.1.now)) result ≡ written_at (view_names names.now) text.now }
{
    let ((pers, path), rest) = path_at(text)?;
    let rest = after_word(rest, b" ")?;
    let Some((value, rest)) = part_value_at(names, pers, path, rest) else {
        return None;
    };
    Some((Request::WriteP { pers, path, value }, rest))
}

/// A request about a move, a wait or an end, or one of those below.
#[tactic(auto, unfolding(crate::specs::EventReading::course_request_at))]
fn course_request_at(text: &[u8]) -> Option<(Request, &[u8])>
    ensures { option_map (λ x. (x.0, x.1.now)) result ≡ course_request_at text.now }
{
    if let Some(rest) = after_word(text, b"Position") {
        return Some((Request::Position, rest));
    }
    if let Some(rest) = after_word(text, b"Setpoint ") {
        let Some((to, rest)) = place_at(rest) else {
            return None;
        };
        return Some((Request::Setpoint { to }, rest));
    }
    if let Some(rest) = after_word(text, b"Hold ") {
        let (seen, rest) = u32_at(rest)?;
        return Some((Request::Hold { seen }, rest));
    }
    if let Some(rest) = after_word(text, b"Rise") {
        return Some((Request::Rise, rest));
    }
    if let Some(rest) = after_word(text, b"Input ") {
        let (index, rest) = u32_at(rest)?;
        return Some((Request::Input { index }, rest));
    }
    if let Some(rest) = after_word(text, b"Say ") {
        return said_at(rest);
    }
    if let Some(rest) = after_word(text, b"End ") {
        let (fate, rest) = fate_at(rest)?;
        return Some((Request::End { fate }, rest));
    }
    interrupt_request_at(text)
}

/// A text to the operator, and its tail.
#[tactic(auto, unfolding(crate::specs::EventReading::said_at))]
fn said_at(text: &[u8]) -> Option<(Request, &[u8])>
    ensures { option_map (λ x. (x.0, x.1.now)) result ≡ said_at text.now }
{
    let Some((text, rest)) = quoted_at(text) else {
        return None;
    };
    let Some((tail, rest)) = tail_at(rest) else {
        return None;
    };
    Some((Request::Say { text, tail }, rest))
}

/// The tail of a text to the operator.
#[tactic(auto, unfolding(crate::specs::EventReading::tail_at))]
fn tail_at(text: &[u8]) -> Option<(Tail, &[u8])>
    ensures { option_map (λ x. (x.0, x.1.now)) result ≡ tail_at text.now }
{
    if let Some((number, rest)) = next_num(b' ', text) {
        return Some((Tail::Num(number), rest));
    }
    if let Some(rest) = after_word(text, b" TRUE") {
        return Some((Tail::Bool(true), rest));
    }
    if let Some(rest) = after_word(text, b" FALSE") {
        return Some((Tail::Bool(false), rest));
    }
    Some((Tail::None, text))
}

/// A request about an interrupt, or one of those below.
#[tactic(auto, unfolding(crate::specs::EventReading::interrupt_request_at))]
fn interrupt_request_at(text: &[u8]) -> Option<(Request, &[u8])>
    ensures { option_map (λ x. (x.0, x.1.now)) result ≡ interrupt_request_at text.now }
{
    if let Some(rest) = after_word(text, b"Connect ") {
        return connect_at(rest);
    }
    if let Some(rest) = after_word(text, b"Order ") {
        return order_at(rest);
    }
    if let Some(rest) = after_word(text, b"Sleep ") {
        let (number, rest) = u8_at(rest)?;
        return Some((Request::Sleep { number }, rest));
    }
    if let Some(rest) = after_word(text, b"Watch ") {
        let (number, rest) = u8_at(rest)?;
        return Some((Request::Watch { number }, rest));
    }
    if let Some(rest) = after_word(text, b"Delete ") {
        let (number, rest) = u8_at(rest)?;
        return Some((Request::Delete { number }, rest));
    }
    if let Some(rest) = after_word(text, b"Disable") {
        return Some((Request::Disable, rest));
    }
    if let Some(rest) = after_word(text, b"Enable") {
        return Some((Request::Enable, rest));
    }
    if let Some(rest) = after_word(text, b"Leave") {
        return Some((Request::Leave, rest));
    }
    zone_request_at(text)
}

/// The number that a variable holds, and a trap.
#[tactic(auto, unfolding(crate::specs::EventReading::connect_at))]
fn connect_at(text: &[u8]) -> Option<(Request, &[u8])>
    ensures { option_map (λ x. (x.0, x.1.now)) result ≡ connect_at text.now }
{
    let (old, rest) = u8_at(text)?;
    let rest = after_word(rest, b" ")?;
    let (trap, rest) = u32_at(rest)?;
    Some((Request::Connect { old, trap }, rest))
}

/// The number of an interrupt, and what it is ordered on.
#[tactic(auto, unfolding(crate::specs::EventReading::order_at))]
fn order_at(text: &[u8]) -> Option<(Request, &[u8])>
    ensures { option_map (λ x. (x.0, x.1.now)) result ≡ order_at text.now }
{
    let (number, rest) = u8_at(text)?;
    let rest = after_word(rest, b" ")?;
    let (on, rest) = watched_at(rest)?;
    let (single, rest) = single_at(rest)?;
    Some((Request::Order { number, on, single }, rest))
}

/// A request about a zone or a meeting.
#[tactic(auto, unfolding(crate::specs::EventReading::zone_request_at))]
fn zone_request_at(text: &[u8]) -> Option<(Request, &[u8])>
    ensures { option_map (λ x. (x.0, x.1.now)) result ≡ zone_request_at text.now }
{
    if let Some(rest) = after_word(text, b"ZoneSet ") {
        return set_zone_at(rest);
    }
    if let Some(rest) = after_word(text, b"ZoneTie ") {
        return tie_at(rest);
    }
    if let Some(rest) = after_word(text, b"ZoneOn ") {
        let (zone, rest) = u8_at(rest)?;
        return Some((Request::ZoneOn { zone }, rest));
    }
    if let Some(rest) = after_word(text, b"ZoneOff ") {
        let (zone, rest) = u8_at(rest)?;
        return Some((Request::ZoneOff { zone }, rest));
    }
    if let Some(rest) = after_word(text, b"ZoneFree ") {
        let (zone, rest) = u8_at(rest)?;
        return Some((Request::ZoneFree { zone }, rest));
    }
    let rest = after_word(text, b"Arrive ")?;
    arrive_at(rest)
}

/// A zone to be made.
#[tactic(auto, unfolding(crate::specs::EventReading::set_zone_at))]
fn set_zone_at(text: &[u8]) -> Option<(Request, &[u8])>
    ensures { option_map (λ x. (x.0, x.1.now)) result ≡ set_zone_at text.now }
{
    let Some(((old, temporary, shape), rest)) = zone_at(text) else {
        return None;
    };
    let request = Request::ZoneSet {
        old,
        temporary,
        shape,
    };
    Some((request, rest))
}

/// A zone to be made, and the signal and the value that it sets.
#[tactic(auto, unfolding(crate::specs::EventReading::tie_at))]
fn tie_at(text: &[u8]) -> Option<(Request, &[u8])>
    ensures { option_map (λ x. (x.0, x.1.now)) result ≡ tie_at text.now }
{
    let Some(((old, temporary, shape), rest)) = zone_at(text) else {
        return None;
    };
    let rest = after_word(rest, b" ")?;
    let ((signal, value), rest) = set_at(rest)?;
    let request = Request::ZoneTie {
        old,
        temporary,
        shape,
        signal,
        value,
    };
    Some((request, rest))
}

/// The number that a variable holds, the kind of a zone, and its shape.
#[tactic(auto, unfolding(crate::specs::EventReading::zone_at))]
fn zone_at(text: &[u8]) -> Option<((u8, bool, Shape), &[u8])>
    ensures { option_map (λ x. (x.0, x.1.now)) result ≡ zone_at text.now }
{
    let (old, rest) = u8_at(text)?;
    let rest = after_word(rest, b" ")?;
    let (temporary, rest) = kind_at(rest)?;
    let rest = after_word(rest, b" ")?;
    let Some((shape, rest)) = shape_at(rest) else {
        return None;
    };
    Some(((old, temporary, shape), rest))
}

/// Whether a zone is temporary.
#[tactic(auto, unfolding(crate::specs::EventReading::kind_at))]
fn kind_at(text: &[u8]) -> Option<(bool, &[u8])>
    ensures { option_map (λ x. (x.0, x.1.now)) result ≡ kind_at text.now }
{
    if let Some(rest) = after_word(text, b"Temp") {
        return Some((true, rest));
    }
    let rest = after_word(text, b"Stat")?;
    Some((false, rest))
}

/// A meeting, and the set of its tasks.
#[tactic(auto, unfolding(crate::specs::EventReading::arrive_at))]
fn arrive_at(text: &[u8]) -> Option<(Request, &[u8])>
    ensures { option_map (λ x. (x.0, x.1.now)) result ≡ arrive_at text.now }
{
    let (meeting, rest) = u32_at(text)?;
    let rest = after_word(rest, b" ")?;
    let (tasks, rest) = u16_at(rest)?;
    Some((Request::Arrive { meeting, tasks }, rest))
}
