//! What may come before the first token: a byte order mark, and a header after blanks.

ghost use Rattle.std.specs.Prelude.{◌≡◌, ◌≤◌, ◌+◌, IfOk, IfSome, length, drop};
ghost use Rattle.std.specs.List.{prefix_len};
ghost use Rattle.rapid_lexer.specs.Bytes.{is_blank};
ghost use Rattle.rapid_lexer.specs.Gaps.{before_fence, front_of, is_fence, mark_len};

use crate::bytes::is_blank;

/// The number of bytes of a byte order mark at the front.
fn mark_len(source: &[u8]) -> usize
    ensures same { result ≡ mark_len source.now }
    ensures within { result ≤ length source.now }
{
    match source {
        [239, 187, 191, ..] => 3,
        _ => 0,
    }
}

/// Whether three percent signs come next.
fn is_fence(bytes: &[u8]) -> bool
    ensures same { result ≡ is_fence bytes.now }
{
    match bytes {
        [37, 37, 37, ..] => true,
        _ => false,
    }
}

/// The number of bytes before the next fence, if there is one.
fn before_fence(bytes: &[u8]) -> Option<usize>
    ensures same { result ≡ before_fence bytes.now }
    ensures within { IfSome result (λ n. n + 3 ≤ length bytes.now) }
{
    for i in 0..bytes.len() {
        if is_fence(&bytes[i..]) {
            return Some(i);
        }
    }
    None
}

/// The position after any blanks at a position.
fn skip_blanks(source: &[u8], at: usize) -> usize
    requires { at ≤ length source.now }
    ensures same { result ≡ at + prefix_len is_blank (drop at source.now) }
    ensures within { result ≤ length source.now }
{
    let mut now = at;
    while now < source.len() && is_blank(source[now]) {
        now += 1;
    }
    now
}

/// The position of the first gap or token, after a byte order mark and a header. An `Err` is the position of a header
/// without an end.
pub(crate) fn front_of(source: &[u8]) -> Result<usize, usize>
    ensures same { result ≡ front_of source.now }
    ensures within { IfOk result (λ n. n ≤ length source.now) }
{
    let mark = mark_len(source);
    let at = skip_blanks(source, mark);
    if !is_fence(&source[at..]) {
        return Ok(mark);
    }
    match before_fence(&source[at + 3..]) {
        Some(len) => Ok(at + 3 + len + 3),
        None => Err(at),
    }
}
