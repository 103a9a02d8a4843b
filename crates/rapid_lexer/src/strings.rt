//! Strings that are too long or have no end.

ghost use Rattle.std.specs.Prelude.{◌≡◌, ◌≤◌, ◌<◌, ◌+◌, ◌^◌, IfSome, length, drop};
ghost use Rattle.rapid_lexer.specs.Reading.{broken, character_len, characters_len, doubled_len, escape_len, stopped};

use crate::bytes::is_code;
use crate::fault::{LexFault, LexRule};
use rapid_limits::LONGEST_STRING;
use rapid_num::is_printable;

fn doubled_len(bytes: &[u8]) -> usize
    ensures same { result ≡ doubled_len bytes.now }
    ensures within { result ≤ length bytes.now + 1 }
{
    match bytes {
        [34, ..] => 2,
        _ => 0,
    }
}

/// The number of bytes of the escape whose backslash comes before these bytes; 0 if there is none.
fn escape_len(bytes: &[u8]) -> usize
    ensures same { result ≡ escape_len bytes.now }
    ensures within { result ≤ length bytes.now + 1 }
{
    match bytes {
        [92, ..] => 2,
        [high, low, ..] => { if is_code(*high, *low) { 3 } else { 0 } }
        _ => 0,
    }
}

/// The number of bytes of the first character; 0 if there is none.
fn character_len(bytes: &[u8]) -> usize
    ensures same { result ≡ character_len bytes.now }
    ensures within { result ≤ length bytes.now }
{
    match bytes {
        [] => 0,
        [34, rest @ ..] => doubled_len(rest),
        [92, rest @ ..] => escape_len(rest),
        [byte, ..] => { if is_printable(*byte) { 1 } else { 0 } }
    }
}

/// The number of bytes of the characters at the front, if there are at most 80.
pub(crate) fn characters_len(bytes: &[u8]) -> Option<usize>
    ensures same { result ≡ characters_len LONGEST_STRING bytes.now }
    ensures within { IfSome result (λ n. n ≤ length bytes.now) }
{
    let mut now = 0;
    for _ in 0..80_usize {
        let len = character_len(&bytes[now..]);
        if len == 0 {
            return Some(now);
        }
        now += len;
    }
    if character_len(&bytes[now..]) == 0 {
        Some(now)
    } else {
        None
    }
}

/// The error of a string that stops at a position, given the bytes left.
fn stopped(quote: usize, at: usize, bytes: &[u8]) -> LexFault
    ensures { result ≡ stopped quote at bytes.now }
{
    match bytes {
        [] | [10, ..] | [13, ..] => LexFault {
            rule: LexRule::OpenString,
            at: quote,
        },
        [92, ..] => LexFault {
            rule: LexRule::BadEscape,
            at,
        },
        _ => LexFault {
            rule: LexRule::BadByte,
            at,
        },
    }
}

/// The error of a string without an end, given the bytes after its quote.
pub(crate) fn broken(quote: usize, bytes: &[u8]) -> LexFault
    requires { quote + 1 + length bytes.now < 2 ^ 64 }
    ensures { result ≡ broken quote bytes.now }
{
    match characters_len(bytes) {
        None => LexFault {
            rule: LexRule::LongString,
            at: quote,
        },
        Some(len) => stopped(quote, quote + 1 + len, &bytes[len..]),
    }
}
