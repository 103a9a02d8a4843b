//! The first character after a quote.

ghost use Rattle.std.specs.Prelude.{◌≡◌, ◌+◌, ◌*◌, if◌then◌else◌};
ghost use Rattle.rapid_num.specs.Literal.{digit_value};
ghost use Rattle.rapid_lexer.specs.Strings.{is_code};
ghost use Rattle.string_texts.specs.Reading.{doubled, escaped, first_of};

use rapid_lexer::is_hex;
use rapid_num::{digit_value, is_printable};

/// The character of a second quote with the one before these bytes, and the length of both.
fn doubled(bytes: &[u8]) -> Option<(u8, usize)>
    ensures { result ≡ doubled bytes.now }
{
    match bytes {
        [34, ..] => Some((34, 2)),
        _ => None,
    }
}

/// The character that two bytes after a backslash encode, if it is printable, and the length with the backslash.
fn coded(high: u8, low: u8) -> Option<(u8, usize)>
    ensures { result ≡ (if is_code high low then Some (digit_value high * 16 + digit_value low, 3) else None) }
{
    if is_hex(high) && is_hex(low) {
        let byte = digit_value(high) * 16 + digit_value(low);
        if is_printable(byte) {
            return Some((byte, 3));
        }
    }
    None
}

/// The character of an escape whose backslash comes before these bytes, and the length of the escape.
fn escaped(bytes: &[u8]) -> Option<(u8, usize)>
    ensures { result ≡ escaped bytes.now }
{
    match bytes {
        [92, ..] => Some((92, 2)),
        [high, low, ..] => coded(*high, *low),
        _ => None,
    }
}

/// The first character, and the number of its bytes. `None` if no character comes first.
pub(crate) fn first_of(bytes: &[u8]) -> Option<(u8, usize)>
    ensures { result ≡ first_of bytes.now }
{
    match bytes {
        [] => None,
        [34, rest @ ..] => doubled(rest),
        [92, rest @ ..] => escaped(rest),
        [byte, ..] => {
            if is_printable(*byte) {
                Some((*byte, 1))
            } else {
                None
            }
        }
    }
}
