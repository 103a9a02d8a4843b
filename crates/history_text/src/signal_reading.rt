//! Reading signals, their values, and what interrupts are ordered on.

ghost use Rattle.std.specs.Prelude.{◌≡◌};
ghost use Rattle.std.specs.Option.{option_map};
ghost use Rattle.history_text.specs.EventReading.{bit_at, set_at, signal_at, single_at, watched_at};

use crate::numbers::u32_at;
use crate::words::after_word;
use rapid_model::Watched;

/// The number of a signal.
#[tactic(auto, unfolding(crate::specs::EventReading::signal_at))]
pub(crate) fn signal_at(text: &[u8]) -> Option<(u32, &[u8])>
    ensures { option_map (λ x. (x.0, x.1.now)) result ≡ signal_at text.now }
{
    let digits = after_word(text, b"D")?;
    u32_at(digits)
}

/// The value of a signal.
#[tactic(auto, unfolding(crate::specs::EventReading::bit_at))]
pub(crate) fn bit_at(text: &[u8]) -> Option<(bool, &[u8])>
    ensures { option_map (λ x. (x.0, x.1.now)) result ≡ bit_at text.now }
{
    if let Some(rest) = after_word(text, b"1") {
        return Some((true, rest));
    }
    let rest = after_word(text, b"0")?;
    Some((false, rest))
}

/// A signal and a value of it.
#[tactic(auto, unfolding(crate::specs::EventReading::set_at))]
pub(crate) fn set_at(text: &[u8]) -> Option<((u32, bool), &[u8])>
    ensures { option_map (λ x. (x.0, x.1.now)) result ≡ set_at text.now }
{
    let (signal, rest) = signal_at(text)?;
    let rest = after_word(rest, b" ")?;
    let (value, rest) = bit_at(rest)?;
    Some(((signal, value), rest))
}

/// What an interrupt is ordered on.
#[tactic(auto, unfolding(crate::specs::EventReading::watched_at))]
pub(crate) fn watched_at(text: &[u8]) -> Option<(Watched, &[u8])>
    ensures { option_map (λ x. (x.0, x.1.now)) result ≡ watched_at text.now }
{
    if let Some(digits) = after_word(text, b"P") {
        let (pers, rest) = u32_at(digits)?;
        return Some((Watched::Pers { pers }, rest));
    }
    let ((signal, value), rest) = set_at(text)?;
    Some((Watched::Signal { signal, value }, rest))
}

/// Whether the order ends when the interrupt fires.
#[tactic(auto, unfolding(crate::specs::EventReading::single_at))]
pub(crate) fn single_at(text: &[u8]) -> Option<(bool, &[u8])>
    ensures { option_map (λ x. (x.0, x.1.now)) result ≡ single_at text.now }
{
    if let Some(rest) = after_word(text, b" Single") {
        return Some((true, rest));
    }
    Some((false, text))
}
