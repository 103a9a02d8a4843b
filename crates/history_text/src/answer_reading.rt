//! Reading answers.

ghost use Rattle.std.specs.Prelude.{◌≡◌};
ghost use Rattle.std.specs.Option.{option_map};
ghost use Rattle.history_text.specs.Named.{view_names};
ghost use Rattle.history_text.specs.EventReading.{answer_at, interrupt_answer_at, plain_answer_at, trap_at, zone_answer_at, zone_name_at};

use crate::names::Names;
use crate::numbers::{u8_at, u32_at};
use crate::part_sorts::part_value_at;
use crate::signal_reading::bit_at;
use crate::value_reading::place_at;
use crate::words::{after_word, truth_at};
use rapid_model::{Answer, Request, ZoneName};

/// The answer to a request, by its words.
#[tactic(auto, unfolding(crate::specs::EventReading::answer_at))]
pub(crate) fn answer_at<'a>(
    names: &Names,
    request: &Request,
    text: &'a [u8],
) -> Option<(Answer, &'a [u8])>
    ensures { option_map (λ x. (x.0, x.1.now)) result ≡ answer_at (view_names names.now) request.now text.now }
{
    match request {
        Request::ReadP { pers, path } => {
            let Some((value, rest)) = part_value_at(names, *pers, *path, text) else {
                return None;
            };
            Some((Answer::Val(value), rest))
        }
        Request::TestSet { .. } => {
            let (met, rest) = truth_at(text)?;
            Some((Answer::Yes(met), rest))
        }
        Request::ReadS { .. } => {
            let (bit, rest) = bit_at(text)?;
            Some((Answer::Bit(bit), rest))
        }
        Request::Position => {
            let Some((place, rest)) = place_at(text) else {
                return None;
            };
            Some((Answer::At(place), rest))
        }
        _ => plain_answer_at(text),
    }
}

/// An answer that its words alone identify.
#[tactic(auto, unfolding(crate::specs::EventReading::plain_answer_at))]
fn plain_answer_at(text: &[u8]) -> Option<(Answer, &[u8])>
    ensures { option_map (λ x. (x.0, x.1.now)) result ≡ plain_answer_at text.now }
{
    if let Some(rest) = after_word(text, b"Ok") {
        return Some((Answer::Ok, rest));
    }
    if let Some(rest) = after_word(text, b"Go ") {
        let (seen, rest) = u32_at(rest)?;
        return Some((Answer::Go { seen }, rest));
    }
    if let Some(rest) = after_word(text, b"Given") {
        return Some((Answer::Given, rest));
    }
    if let Some(rest) = after_word(text, b"Stopped ") {
        let (zone, rest) = zone_name_at(rest)?;
        return Some((Answer::Stopped(zone), rest));
    }
    interrupt_answer_at(text)
}

/// A zone that stopped a move.
#[tactic(auto, unfolding(crate::specs::EventReading::zone_name_at))]
fn zone_name_at(text: &[u8]) -> Option<(ZoneName, &[u8])>
    ensures { option_map (λ x. (x.0, x.1.now)) result ≡ zone_name_at text.now }
{
    if let Some(rest) = after_word(text, b"Own ") {
        let (number, rest) = u8_at(rest)?;
        return Some((ZoneName::Own(number), rest));
    }
    let rest = after_word(text, b"Cell ")?;
    let (number, rest) = u8_at(rest)?;
    Some((ZoneName::Cell(number), rest))
}

/// An answer about interrupts, or one of those below.
#[tactic(auto, unfolding(crate::specs::EventReading::interrupt_answer_at))]
fn interrupt_answer_at(text: &[u8]) -> Option<(Answer, &[u8])>
    ensures { option_map (λ x. (x.0, x.1.now)) result ≡ interrupt_answer_at text.now }
{
    if let Some(rest) = after_word(text, b"Trap ") {
        return trap_at(rest);
    }
    if let Some(rest) = after_word(text, b"Flood") {
        return Some((Answer::Flood, rest));
    }
    if let Some(rest) = after_word(text, b"Number ") {
        let (number, rest) = u8_at(rest)?;
        return Some((Answer::Number(number), rest));
    }
    if let Some(rest) = after_word(text, b"Already") {
        return Some((Answer::Already, rest));
    }
    if let Some(rest) = after_word(text, b"Unknown") {
        return Some((Answer::Unknown, rest));
    }
    if let Some(rest) = after_word(text, b"NoMore") {
        return Some((Answer::NoMore, rest));
    }
    zone_answer_at(text)
}

/// The number of an interrupt, and its trap.
#[tactic(auto, unfolding(crate::specs::EventReading::trap_at))]
fn trap_at(text: &[u8]) -> Option<(Answer, &[u8])>
    ensures { option_map (λ x. (x.0, x.1.now)) result ≡ trap_at text.now }
{
    let (number, rest) = u8_at(text)?;
    let rest = after_word(rest, b" ")?;
    let (trap, rest) = u32_at(rest)?;
    Some((Answer::Trap { number, trap }, rest))
}

/// An answer about zones or meetings.
#[tactic(auto, unfolding(crate::specs::EventReading::zone_answer_at))]
fn zone_answer_at(text: &[u8]) -> Option<(Answer, &[u8])>
    ensures { option_map (λ x. (x.0, x.1.now)) result ≡ zone_answer_at text.now }
{
    if let Some(rest) = after_word(text, b"ZoneUsed") {
        return Some((Answer::ZoneUsed, rest));
    }
    if let Some(rest) = after_word(text, b"ZoneFull") {
        return Some((Answer::ZoneFull, rest));
    }
    if let Some(rest) = after_word(text, b"NoZone") {
        return Some((Answer::NoZone, rest));
    }
    if let Some(rest) = after_word(text, b"Tied") {
        return Some((Answer::Tied, rest));
    }
    if let Some(rest) = after_word(text, b"Met") {
        return Some((Answer::Met, rest));
    }
    let rest = after_word(text, b"Apart")?;
    Some((Answer::Apart, rest))
}
