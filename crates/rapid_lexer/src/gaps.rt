//! What is between tokens.

ghost use Rattle.std.specs.Prelude.{◌≡◌, ◌≤◌, ◌+◌, length, drop, true, false};
ghost use Rattle.rapid_lexer.specs.Reading.{gap_len};

use crate::bytes::is_blank;

/// The position of the next line feed, or the end, from a position in a comment.
fn line_end(source: &[u8], at: usize) -> usize
    requires { at ≤ length source.now }
    ensures same { result + gap_len false (drop result source.now) ≡ at + gap_len true (drop at source.now) }
    ensures goes_on { at ≤ result }
    ensures within { result ≤ length source.now }
{
    let mut now = at;
    while now < source.len() && source[now] != 10 {
        now += 1;
    }
    now
}

/// The position after any blanks and comments at a position.
pub(crate) fn skip_gaps(source: &[u8], at: usize) -> usize
    requires { at ≤ length source.now }
    ensures same { result ≡ at + gap_len false (drop at source.now) }
    ensures within { result ≤ length source.now }
{
    let mut now = at;
    while now < source.len() {
        let byte = source[now];
        if byte == b'!' {
            now = line_end(source, now + 1);
        } else if is_blank(byte) {
            now += 1;
        } else {
            return now;
        }
    }
    now
}
