//! The text of a string token.

ghost use Rattle.std.specs.Prelude.{◌≡◌, ◌≤◌, ℕ, List, [], ◌∷◌, IfSome, IsTrue, ◌↔◌, length};
ghost use Rattle.string_texts.specs.Spelled.{Spells, text_in};

use crate::first::first_of;
use rapid_limits::LONGEST_STRING;
use rapid_model::Text;

fn is_end(bytes: &[u8]) -> bool
    ensures { IsTrue result ↔ bytes.now ≡ 34 ∷ [] }
{
    matches!(bytes, [34])
}

/// The text of the string whose opening quote comes before these bytes.
fn text_after_quote(bytes: &[u8]) -> Option<Text>
    ensures spelled { IfSome result (λ t. Spells (34 ∷ bytes.now) t) }
    ensures only { (t : List ℕ) → Spells (34 ∷ bytes.now) t → length t ≤ LONGEST_STRING → result ≡ Some t }
    ensures text { result ≡ text_in (34 ∷ bytes.now) }
{
    let mut text = Text::new();
    let mut left = bytes;
    while let Some((byte, len)) = first_of(left) {
        if !text.push(byte) {
            return None;
        }
        left = &left[len..];
    }
    if is_end(left) { Some(text) } else { None }
}

/// The text of a string token: the characters between its quotes. Each is a byte from space to `~`, a doubled quote or
/// backslash for one, or a backslash and two hexadecimal digits (RAPID Kernel, lexical elements). `None` exactly if the
/// token is not a string of at most 80 characters.
pub fn text_of(quoted: &[u8]) -> Option<Text>
    ensures spelled { IfSome result (λ t. Spells quoted.now t) }
    ensures only { (t : List ℕ) → Spells quoted.now t → length t ≤ LONGEST_STRING → result ≡ Some t }
    ensures text { result ≡ text_in quoted.now }
{
    match quoted {
        [34, rest @ ..] => text_after_quote(rest),
        _ => None,
    }
}
