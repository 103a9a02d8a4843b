//! Decimal literals: digits with or without a decimal point, and an optional exponent.
ghost use Rattle.std.specs.Prelude.{◌≡◌, ◌+◌, ◌^◌, ◌<◌, ◌≤◌, pos, length, nat_abs, position, IfSome, option_map};
ghost use Rattle.std.specs.List.{before_first, after_first};
ghost use Rattle.rapid_num.specs.Literal.{is_point, is_exponent_letter, mantissa_of, exponent_of, decimal_thousandths};
ghost use Rattle.rapid_num.specs.Reading.{number_of, scaled_mantissa, within};

use crate::digits::{read_digits, read_onto};
use crate::scale::scale;
use rapid_limits::LONGEST_LITERAL;

/// The index of the first point.
fn point_index(text: &[u8]) -> Option<usize>
    ensures { result ≡ position is_point text.now }
{
    text.iter().position(|byte| *byte == b'.')
}

/// The index of the first exponent letter.
fn letter_index(text: &[u8]) -> Option<usize>
    ensures { result ≡ position is_exponent_letter text.now }
{
    text.iter().position(|byte| *byte == b'E' || *byte == b'e')
}

/// The text before the first point, and the text after it.
fn cut_at_point(text: &[u8]) -> (&[u8], &[u8])
    ensures before { result.0.now ≡ before_first is_point text.now }
    ensures after { result.1.now ≡ after_first is_point text.now }
    ensures no_longer { length result.0.now + length result.1.now ≤ length text.now }
{
    match point_index(text) {
        Some(at) => (&text[..at], &text[at + 1..]),
        None => (text, &[]),
    }
}

/// The value of the digits on both sides of the point, and the number of digits after it.
fn read_mantissa(text: &[u8]) -> Option<(u128, usize)>
    requires short { length text.now ≤ LONGEST_LITERAL }
    ensures value { result ≡ mantissa_of text.now }
    ensures thirty_digits { IfSome result (λ m. m.0 < 10 ^ 30) }
    ensures decimals { IfSome result (λ m. m.1 ≤ LONGEST_LITERAL) }
{
    let (whole, fraction) = cut_at_point(text);
    if whole.is_empty() && fraction.is_empty() {
        return None;
    }
    let front = read_onto(10, 0, whole)?;
    let number = read_onto(10, front, fraction)?;
    Some((number, fraction.len()))
}

/// The exponent of digits without a sign.
fn read_plain_exponent(digits: &[u8]) -> Option<i128>
    requires short { length digits.now ≤ LONGEST_LITERAL }
    ensures value { result ≡ option_map pos (number_of 10 digits.now) }
    ensures thirty_digits { IfSome result (λ e. nat_abs e < 10 ^ 30) }
{
    let number = read_digits(10, digits)?;
    Some(number as i128)
}

/// The exponent of an optional sign and digits.
fn read_exponent(text: &[u8]) -> Option<i128>
    requires short { length text.now ≤ LONGEST_LITERAL }
    ensures value { result ≡ exponent_of text.now }
    ensures thirty_digits { IfSome result (λ e. nat_abs e < 10 ^ 30) }
{
    if text.is_empty() {
        return None;
    }
    match text[0] {
        b'+' => read_plain_exponent(&text[1..]),
        b'-' => {
            let size = read_plain_exponent(&text[1..])?;
            Some(-size)
        }
        _ => read_plain_exponent(text),
    }
}

/// The value of a decimal without an exponent, times ten to the power of `exponent`, in thousandths.
fn read_scaled(text: &[u8], exponent: i128) -> Option<u64>
    requires short { length text.now ≤ LONGEST_LITERAL }
    requires thirty_digits { nat_abs exponent < 10 ^ 30 }
    ensures { result ≡ within (scaled_mantissa text.now exponent) }
{
    let (number, decimals) = read_mantissa(text)?;
    scale(number, exponent - decimals as i128 + 3)
}

/// The value of a decimal literal, in thousandths. `None` exactly if the text is not one or its value is out of range.
pub(crate) fn read_decimal(text: &[u8]) -> Option<u64>
    requires short { length text.now ≤ LONGEST_LITERAL }
    ensures { result ≡ within (decimal_thousandths text.now) }
{
    match letter_index(text) {
        Some(at) => {
            let exponent = read_exponent(&text[at + 1..])?;
            read_scaled(&text[..at], exponent)
        }
        None => read_scaled(text, 0),
    }
}
