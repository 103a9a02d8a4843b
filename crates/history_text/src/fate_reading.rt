//! Reading fates and faults.

ghost use Rattle.std.specs.Prelude.{◌≡◌};
ghost use Rattle.std.specs.Option.{option_map};
ghost use Rattle.history_text.specs.EventReading.{fate_at, fault_at, named_at, unhandled_at};

use crate::fate_line::name_of;
use crate::numbers::u8_at;
use crate::words::after_word;
use rapid_model::{Fate, Fault};

/// A fate.
#[tactic(auto, unfolding(crate::specs::EventReading::fate_at))]
pub(crate) fn fate_at(text: &[u8]) -> Option<(Fate, &[u8])>
    ensures { option_map (λ x. (x.0, x.1.now)) result ≡ fate_at text.now }
{
    if let Some(rest) = after_word(text, b"Done") {
        return Some((Fate::Done, rest));
    }
    if let Some(rest) = after_word(text, b"Exit") {
        return Some((Fate::Exit, rest));
    }
    if let Some(rest) = after_word(text, b"Held") {
        return Some((Fate::Held, rest));
    }
    if let Some(rest) = after_word(text, b"Cut") {
        return Some((Fate::Cut, rest));
    }
    let name = after_word(text, b"Fault ")?;
    let (fault, rest) = fault_at(name)?;
    Some((Fate::Fault(fault), rest))
}

/// The faults without a number.
const PLAIN_FAULTS: [Fault; 18] = [
    Fault::NumRange,
    Fault::IndexRange,
    Fault::DepthLimit,
    Fault::NoReturn,
    Fault::RaiseRange,
    Fault::SignalValue,
    Fault::TaskName,
    Fault::MoveInTrap,
    Fault::JointRange,
    Fault::Speed,
    Fault::ZoneStop,
    Fault::ZoneShape,
    Fault::ZoneFull,
    Fault::ZoneUsed,
    Fault::NoZone,
    Fault::ExtAxis,
    Fault::TrapFlood,
    Fault::TiedOutput,
];

/// A fault by its name.
#[tactic(auto, unfolding(crate::specs::EventReading::fault_at))]
fn fault_at(text: &[u8]) -> Option<(Fault, &[u8])>
    ensures { option_map (λ x. (x.0, x.1.now)) result ≡ fault_at text.now }
{
    if let Some((fault, rest)) = named_at(&PLAIN_FAULTS, text) {
        return Some((fault, rest));
    }
    unhandled_at(text)
}

/// The first of these faults whose name starts the text.
#[tactic(auto, unfolding(crate::specs::EventReading::named_at))]
fn named_at<'a>(faults: &[Fault], text: &'a [u8]) -> Option<(Fault, &'a [u8])>
    ensures { option_map (λ x. (x.0, x.1.now)) result ≡ named_at faults.now text.now }
{
    for fault in faults {
        if let Some(rest) = after_word(text, name_of(*fault).as_bytes()) {
            return Some((*fault, rest));
        }
    }
    None
}

/// The number of an unhandled error.
#[tactic(auto, unfolding(crate::specs::EventReading::unhandled_at))]
fn unhandled_at(text: &[u8]) -> Option<(Fault, &[u8])>
    ensures { option_map (λ x. (x.0, x.1.now)) result ≡ unhandled_at text.now }
{
    let digits = after_word(text, b"Unhandled ")?;
    let (number, rest) = u8_at(digits)?;
    Some((Fault::Unhandled(number), rest))
}
