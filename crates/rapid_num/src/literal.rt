//! Numerical literals.
ghost use Rattle.std.specs.Prelude.{◌≡◌, ◌*◌, ◌^◌, ◌≤◌, length};
ghost use Rattle.std.specs.Result.{result_ok};
ghost use Rattle.rapid_num.specs.Literal.{base_of, based_thousandths, literal_value, spelled_thousandths};
ghost use Rattle.rapid_num.specs.Reading.{within};

use crate::decimal::read_decimal;
use crate::digits::read_digits;
use crate::num::Num;
use crate::scale::size_within;
use rapid_limits::LONGEST_LITERAL;

/// The text is not a literal, has more than 30 bytes, or its rounded value is out of range.
#[derive(Clone, Copy, Debug, PartialEq, Eq)]
pub struct BadLiteral;

/// The base for the letter after a 0.
fn base_of(letter: u8) -> Option<u128>
    ensures { result ≡ base_of letter }
{
    match letter {
        b'x' | b'X' => Some(16),
        b'o' | b'O' => Some(8),
        b'b' | b'B' => Some(2),
        _ => None,
    }
}

/// The value of digits of a base, in thousandths.
fn read_based(digits: &[u8], base: u128) -> Option<u64>
    requires room { base ^ length digits.now * 1000 ≤ 2 ^ 127 }
    ensures { result ≡ within (based_thousandths digits.now base) }
{
    let number = read_digits(base, digits)?;
    size_within(number * 1000)
}

/// The value of a literal, in thousandths. `None` exactly if the text is not a literal or its value is out of range.
fn read_thousandths(text: &[u8]) -> Option<u64>
    requires short { length text.now ≤ LONGEST_LITERAL }
    ensures { result ≡ within (spelled_thousandths text.now) }
{
    // Most literals are digits alone: there is no need to look for a point or an exponent.
    if let Some(whole) = read_based(text, 10) {
        return Some(whole);
    }
    if text.len() < 2 || text[0] != b'0' {
        return read_decimal(text);
    }
    match base_of(text[1]) {
        Some(base) => read_based(&text[2..], base),
        None => read_decimal(text),
    }
}

/// The num of a numerical literal (RAPID Kernel, lexical elements): digits, with or without a decimal point, and an
/// optional exponent; or `0x`, `0o` or `0b` and digits of that base. The value is rounded to a thousandth, halves away
/// from zero.
pub fn read_literal(text: &[u8]) -> Result<Num, BadLiteral>
    ensures value { result_ok result ≡ literal_value text.now }
{
    if text.len() > LONGEST_LITERAL {
        return Err(BadLiteral);
    }
    let thousandths = read_thousandths(text).ok_or(BadLiteral)?;
    Num::new(thousandths as i64).ok_or(BadLiteral)
}
