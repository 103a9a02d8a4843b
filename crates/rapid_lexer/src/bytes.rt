//! Byte tests.

ghost use Rattle.std.specs.Prelude.{◌≡◌};
ghost use Rattle.rapid_num.specs.Literal.{is_exponent_letter};
ghost use Rattle.rapid_num.specs.Characters.{is_digit, is_letter, is_name_byte};
ghost use Rattle.rapid_lexer.specs.Bytes.{is_blank, is_hex, upper};
ghost use Rattle.rapid_lexer.specs.Scanning.{single_of};
ghost use Rattle.rapid_lexer.specs.Strings.{is_code};

use crate::mark::Mark;
use rapid_num::{digit_value, is_printable};

pub(crate) fn is_digit(byte: u8) -> bool
    ensures { result ≡ is_digit byte }
{
    byte >= 48 && byte <= 57
}

/// Whether a byte is a letter, in upper or lower case.
pub fn is_letter(byte: u8) -> bool
    ensures { result ≡ is_letter byte }
{
    (byte >= 65 && byte <= 90) || (byte >= 97 && byte <= 122)
}

/// Whether a byte may occur in a name after its first letter.
pub fn is_name_byte(byte: u8) -> bool
    ensures { result ≡ is_name_byte byte }
{
    is_letter(byte) || is_digit(byte) || byte == 95
}

pub(crate) fn upper(byte: u8) -> u8
    ensures { result ≡ upper byte }
{
    if byte >= 97 && byte <= 122 {
        byte - 32
    } else {
        byte
    }
}

pub(crate) fn is_blank(byte: u8) -> bool
    ensures { result ≡ is_blank byte }
{
    byte == 9 || byte == 10 || byte == 12 || byte == 13 || byte == 32
}

/// Whether a byte is a hexadecimal digit, case-insensitive.
pub fn is_hex(byte: u8) -> bool
    ensures { result ≡ is_hex byte }
{
    digit_value(byte) < 16
}

/// Whether two hexadecimal digits encode a printable character.
pub(crate) fn is_code(high: u8, low: u8) -> bool
    ensures { result ≡ is_code high low }
{
    is_hex(high) && is_hex(low) && is_printable(digit_value(high) * 16 + digit_value(low))
}

pub(crate) fn is_exponent_letter(byte: u8) -> bool
    ensures { result ≡ is_exponent_letter byte }
{
    byte == 69 || byte == 101
}

/// The mark that a byte is, if no longer mark starts with it.
pub(crate) fn single_of(byte: u8) -> Option<Mark>
    ensures { result ≡ single_of byte }
{
    match byte {
        b'{' => Some(Mark::OpenBrace),
        b'}' => Some(Mark::CloseBrace),
        b'[' => Some(Mark::OpenBracket),
        b']' => Some(Mark::CloseBracket),
        b'(' => Some(Mark::OpenParenthesis),
        b')' => Some(Mark::CloseParenthesis),
        b',' => Some(Mark::Comma),
        b';' => Some(Mark::Semicolon),
        b'=' => Some(Mark::Equal),
        b'+' => Some(Mark::Plus),
        b'-' => Some(Mark::Minus),
        b'*' => Some(Mark::Star),
        b'/' => Some(Mark::Slash),
        b'\\' => Some(Mark::Backslash),
        b'?' => Some(Mark::Question),
        _ => None,
    }
}
