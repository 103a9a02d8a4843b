//! The longest token at the front of bytes.

ghost use Rattle.std.specs.Prelude.{◌≡◌, ◌≤◌, ◌<◌, IfSome, length};
ghost use Rattle.std.specs.List.{prefix_len};
ghost use Rattle.rapid_num.specs.Characters.{is_name_byte};
ghost use Rattle.rapid_lexer.specs.Scanning.{longest};
ghost use Rattle.rapid_lexer.specs.declared.state.State.TheVariants.{Start};

use crate::bytes::{is_letter, is_name_byte, single_of};
use crate::kind::Kind;
use crate::state::State;

/// The number of letters, digits and `_` at the front of the bytes.
fn name_len(bytes: &[u8]) -> usize
    ensures same { result ≡ prefix_len is_name_byte bytes.now }
    ensures within { result ≤ length bytes.now }
{
    let mut len = 0;
    while len < bytes.len() && is_name_byte(bytes[len]) {
        len += 1;
    }
    len
}

/// The longest token, found byte by byte through the states of the scanner.
fn scanned_token(bytes: &[u8]) -> Option<(Kind, usize)>
    ensures { result ≡ longest Start bytes.now }
{
    let mut last = None;
    let mut state = State::Start;
    for (i, byte) in bytes.iter().enumerate() {
        state = state.step(*byte);
        if state.is_dead() {
            return last;
        }
        if let Some(kind) = state.kind() {
            last = Some((kind, i + 1));
        }
    }
    last
}

/// The kind and the number of bytes of the longest token at the front of the bytes, with a reserved word as a name.
/// A name, and a mark of one byte that no longer mark starts with, need no states.
pub(crate) fn longest_token(bytes: &[u8]) -> Option<(Kind, usize)>
    ensures same { result ≡ longest Start bytes.now }
    ensures within { IfSome result (λ x. x.1 ≤ length bytes.now) }
    ensures some_bytes { IfSome result (λ x. 0 < x.1) }
{
    let first = *bytes.first()?;
    if is_letter(first) {
        return Some((Kind::Name, name_len(bytes)));
    }
    if let Some(mark) = single_of(first) {
        return Some((Kind::Mark(mark), 1));
    }
    scanned_token(bytes)
}
