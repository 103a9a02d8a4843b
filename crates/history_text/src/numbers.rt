//! Reading numbers.

ghost use Rattle.std.specs.Prelude.{◌≡◌, ◌*◌, ◌^◌, ◌<◌, ◌≤◌, IfSome};
ghost use Rattle.std.specs.Option.{option_map};
ghost use Rattle.history_text.specs.Reading.{decimals_at, digit_at, digits_at, four_nums, fraction_at, minus_at, next_num, num_at, number_at, nums_at, signed, six_nums, size_at, whole_at};

use crate::words::after_word;
use rapid_num::Num;

/// The number that the digits so far and these spell: `None` past ten digits.
#[tactic(auto, unfolding(crate::specs::Reading::digits_at))]
fn digits_at(so_far: u64, text: &[u8]) -> Option<(u64, &[u8])>
    requires { so_far < 10 ^ 10 }
    ensures number { option_map (λ x. (x.0, x.1.now)) result ≡ digits_at so_far text.now }
    ensures below { IfSome result (λ x. x.0 < 10 ^ 10) }
{
    let mut number = so_far;
    let mut rest = text;
    while let [digit @ b'0'..=b'9', more @ ..] = rest {
        if number >= 1_000_000_000 {
            return None;
        }
        number = number * 10 + u64::from(*digit - b'0');
        rest = more;
    }
    Some((number, rest))
}

/// A number of one or more digits.
#[tactic(auto, unfolding(crate::specs::Reading::number_at))]
fn number_at(text: &[u8]) -> Option<(u64, &[u8])>
    ensures number { option_map (λ x. (x.0, x.1.now)) result ≡ number_at text.now }
    ensures below { IfSome result (λ x. x.0 < 10 ^ 10) }
{
    match text {
        [digit @ b'0'..=b'9', rest @ ..] => digits_at(u64::from(*digit - b'0'), rest),
        _ => None,
    }
}

/// An integer below a limit.
#[tactic(auto, unfolding(crate::specs::Reading::whole_at))]
fn whole_at(limit: u64, text: &[u8]) -> Option<(u64, &[u8])>
    ensures number { option_map (λ x. (x.0, x.1.now)) result ≡ whole_at limit text.now }
    ensures below { IfSome result (λ x. x.0 < limit) }
{
    let (number, rest) = number_at(text)?;
    if number >= limit {
        return None;
    }
    Some((number, rest))
}

/// A number of 8 bits.
pub(crate) fn u8_at(text: &[u8]) -> Option<(u8, &[u8])>
    ensures { option_map (λ x. (x.0, x.1.now)) result ≡ whole_at (2 ^ 8) text.now }
{
    let (number, rest) = whole_at(256, text)?;
    Some((number as u8, rest))
}

/// A number of 16 bits.
pub(crate) fn u16_at(text: &[u8]) -> Option<(u16, &[u8])>
    ensures { option_map (λ x. (x.0, x.1.now)) result ≡ whole_at (2 ^ 16) text.now }
{
    let (number, rest) = whole_at(65_536, text)?;
    Some((number as u16, rest))
}

/// A number of 32 bits.
pub(crate) fn u32_at(text: &[u8]) -> Option<(u32, &[u8])>
    ensures { option_map (λ x. (x.0, x.1.now)) result ≡ whole_at (2 ^ 32) text.now }
{
    let (number, rest) = whole_at(4_294_967_296, text)?;
    Some((number as u32, rest))
}

/// What a digit counts, in these units: 0 if there is none.
#[tactic(auto, unfolding(crate::specs::Reading::digit_at))]
fn digit_at(unit: u64, text: &[u8]) -> (u64, &[u8])
    requires { unit ≤ 100 }
    ensures digit { (result.0, result.1.now) ≡ digit_at unit text.now }
    ensures below { result.0 ≤ 9 * unit }
{
    match text {
        [digit @ b'0'..=b'9', rest @ ..] => (u64::from(*digit - b'0') * unit, rest),
        _ => (0, text),
    }
}

/// Up to three decimals, as thousandths.
#[tactic(auto, unfolding(crate::specs::Reading::decimals_at))]
fn decimals_at(text: &[u8]) -> (u64, &[u8])
    ensures decimals { (result.0, result.1.now) ≡ decimals_at text.now }
    ensures below { result.0 < 1000 }
{
    let (tenths, rest) = digit_at(100, text);
    let (hundredths, rest) = digit_at(10, rest);
    let (thousandths, rest) = digit_at(1, rest);
    (tenths + hundredths + thousandths, rest)
}

/// The decimals after a point: 0 if there is no point.
#[tactic(auto, unfolding(crate::specs::Reading::fraction_at))]
fn fraction_at(text: &[u8]) -> (u64, &[u8])
    ensures decimals { (result.0, result.1.now) ≡ fraction_at text.now }
    ensures below { result.0 < 1000 }
{
    match text {
        [b'.', rest @ ..] => decimals_at(rest),
        _ => (0, text),
    }
}

/// The thousandths of an unsigned num.
#[tactic(auto, unfolding(crate::specs::Reading::size_at))]
fn size_at(text: &[u8]) -> Option<(u64, &[u8])>
    ensures size { option_map (λ x. (x.0, x.1.now)) result ≡ size_at text.now }
    ensures below { IfSome result (λ x. x.0 < 10 ^ 14) }
{
    let (whole, rest) = number_at(text)?;
    let (thousandths, rest) = fraction_at(rest);
    Some((whole * 1000 + thousandths, rest))
}

/// Whether there is a minus, and what follows it.
#[tactic(auto, unfolding(crate::specs::Reading::minus_at))]
fn minus_at(text: &[u8]) -> (bool, &[u8])
    ensures { (result.0, result.1.now) ≡ minus_at text.now }
{
    match text {
        [b'-', rest @ ..] => (true, rest),
        _ => (false, text),
    }
}

fn signed(minus: bool, size: u64) -> i64
    requires { size < 10 ^ 14 }
    ensures { result ≡ signed minus size }
{
    if minus { -(size as i64) } else { size as i64 }
}

/// A num.
#[tactic(auto, unfolding(crate::specs::Reading::num_at))]
pub(crate) fn num_at(text: &[u8]) -> Option<(Num, &[u8])>
    ensures { option_map (λ x. (x.0, x.1.now)) result ≡ num_at text.now }
{
    let (minus, digits) = minus_at(text);
    let (size, rest) = size_at(digits)?;
    let number = Num::new(signed(minus, size))?;
    Some((number, rest))
}

/// A num after a byte.
#[tactic(auto, unfolding(crate::specs::Reading::next_num))]
pub(crate) fn next_num(byte: u8, text: &[u8]) -> Option<(Num, &[u8])>
    ensures { option_map (λ x. (x.0, x.1.now)) result ≡ next_num byte text.now }
{
    let rest = after_word(text, &[byte])?;
    num_at(rest)
}

/// Four nums.
pub(crate) type Four = (Num, Num, Num, Num);

/// Six nums.
pub(crate) type Six = (Num, Num, Num, Num, Num, Num);

/// Four nums with a byte between.
#[tactic(auto, unfolding(crate::specs::Reading::nums_at, crate::specs::Reading::many_at))]
pub(crate) fn four_at(byte: u8, text: &[u8]) -> Option<(Four, &[u8])>
    ensures { option_map (λ x. (four_nums x.0, x.1.now)) result ≡ nums_at byte 3 text.now }
{
    let Some((a, rest)) = num_at(text) else {
        return None;
    };
    let Some((b, rest)) = next_num(byte, rest) else {
        return None;
    };
    let Some((c, rest)) = next_num(byte, rest) else {
        return None;
    };
    let Some((d, rest)) = next_num(byte, rest) else {
        return None;
    };
    Some(((a, b, c, d), rest))
}

/// Six nums with a byte between.
#[tactic(auto, unfolding(crate::specs::Reading::nums_at, crate::specs::Reading::many_at))]
pub(crate) fn six_at(byte: u8, text: &[u8]) -> Option<(Six, &[u8])>
    ensures { option_map (λ x. (six_nums x.0, x.1.now)) result ≡ nums_at byte 5 text.now }
{
    let Some((a, rest)) = num_at(text) else {
        return None;
    };
    let Some((b, rest)) = next_num(byte, rest) else {
        return None;
    };
    let Some((c, rest)) = next_num(byte, rest) else {
        return None;
    };
    let Some((d, rest)) = next_num(byte, rest) else {
        return None;
    };
    let Some((e, rest)) = next_num(byte, rest) else {
        return None;
    };
    let Some((f, rest)) = next_num(byte, rest) else {
        return None;
    };
    Some(((a, b, c, d, e, f), rest))
}
