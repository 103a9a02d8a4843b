//! Reading parts of persistents.

ghost use Rattle.std.specs.Prelude.{◌≡◌, ◌≤◌};
ghost use Rattle.std.specs.Option.{option_map};
ghost use Rattle.history_text.specs.ValueReading.{axis_at, element_at, part_at, path_at, speed_at};

use crate::numbers::{u16_at, u32_at};
use crate::words::after_word;
use rapid_model::{PartName, Path};

/// The number of a persistent, and a part of it.
#[tactic(auto, unfolding(crate::specs::ValueReading::path_at))]
pub(crate) fn path_at(text: &[u8]) -> Option<((u32, Path), &[u8])>
    ensures { option_map (λ x. (x.0, x.1.now)) result ≡ path_at text.now }
{
    let digits = after_word(text, b"P")?;
    let (pers, rest) = u32_at(digits)?;
    let (index, rest) = element_at(rest)?;
    let (part, rest) = part_at(rest)?;
    Some(((pers, Path { index, part }), rest))
}

/// An element in braces, or 0 if there is no brace.
#[tactic(auto, unfolding(crate::specs::ValueReading::element_at))]
fn element_at(text: &[u8]) -> Option<(u16, &[u8])>
    ensures { option_map (λ x. (x.0, x.1.now)) result ≡ element_at text.now }
{
    if let Some(digits) = after_word(text, b"{") {
        let (index, rest) = u16_at(digits)?;
        let rest = after_word(rest, b"}")?;
        return Some((index, rest));
    }
    Some((0, text))
}

/// A part, or the whole if none is named.
#[tactic(auto, unfolding(crate::specs::ValueReading::part_at, crate::specs::Reading::after_word))]
fn part_at(text: &[u8]) -> Option<(PartName, &[u8])>
    ensures { option_map (λ x. (x.0, x.1.now)) result ≡ part_at text.now }
{
    if let Some(rest) = after_word(text, b".robax.rax_") {
        return axis_at(0, b'1', rest);
    }
    if let Some(rest) = after_word(text, b".extax.eax_") {
        return axis_at(6, b'a', rest);
    }
    if let Some(rest) = after_word(text, b".robax") {
        return Some((PartName::Robax, rest));
    }
    if let Some(rest) = after_word(text, b".extax") {
        return Some((PartName::Extax, rest));
    }
    if let Some(rest) = after_word(text, b".taskname") {
        return Some((PartName::Taskname, rest));
    }
    speed_at(text)
}

/// One of six axes, by the number of the first and the byte that names the axis.
#[tactic(auto, unfolding(crate::specs::ValueReading::axis_at))]
fn axis_at(first: u8, letter: u8, text: &[u8]) -> Option<(PartName, &[u8])>
    requires few { first ≤ 6 }
    requires letter { letter ≤ 97 }
    ensures { option_map (λ x. (x.0, x.1.now)) result ≡ axis_at first letter text.now }
{
    match text {
        [byte, rest @ ..] if letter <= *byte && *byte < letter + 6 => {
            Some((PartName::Axis(*byte - letter + first), rest))
        }
        _ => None,
    }
}

/// A part of a speed, or the whole if none is named.
#[tactic(auto, unfolding(crate::specs::ValueReading::speed_at))]
fn speed_at(text: &[u8]) -> Option<(PartName, &[u8])>
    ensures { option_map (λ x. (x.0, x.1.now)) result ≡ speed_at text.now }
{
    if let Some(rest) = after_word(text, b".v_tcp") {
        return Some((PartName::SpeedPart(0), rest));
    }
    if let Some(rest) = after_word(text, b".v_ori") {
        return Some((PartName::SpeedPart(1), rest));
    }
    if let Some(rest) = after_word(text, b".v_leax") {
        return Some((PartName::SpeedPart(2), rest));
    }
    if let Some(rest) = after_word(text, b".v_reax") {
        return Some((PartName::SpeedPart(3), rest));
    }
    Some((PartName::Whole, text))
}
