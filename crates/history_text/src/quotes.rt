//! Reading texts in quotes.

ghost use Rattle.std.specs.Prelude.{◌≡◌, []};
ghost use Rattle.std.specs.Option.{option_map};
ghost use Rattle.history_text.specs.Reading.{character_at, characters_at, quoted_at};

use crate::words::after_word;
use rapid_limits::LONGEST_STRING;
use rapid_model::Text;

/// The next character of a text in quotes, or none at its end.
#[tactic(auto, unfolding(crate::specs::Reading::character_at))]
fn character_at(text: &[u8]) -> Option<(Option<u8>, &[u8])>
    ensures { option_map (λ x. (x.0, x.1.now)) result ≡ character_at text.now }
{
    match text {
        [b'"', b'"', rest @ ..] => Some((Some(b'"'), rest)),
        [b'"', rest @ ..] => Some((None, rest)),
        [b'\\', byte, rest @ ..] => Some((Some(*byte), rest)),
        [byte, rest @ ..] => Some((Some(*byte), rest)),
        [] => None,
    }
}

/// The characters up to the closing quote. One more step is made than a text has room for.
#[tactic(auto, using(crate::proofs::Characters::characters_turn, crate::proofs::Characters::characters_end))]
fn characters_at(text: &[u8], steps: usize) -> Option<(Text, &[u8])>
    ensures { option_map (λ x. (x.0, x.1.now)) result ≡ characters_at steps [] text.now }
{
    let mut so_far = Text::new();
    let mut rest = text;
    for _ in 0..steps {
        let (next, after) = character_at(rest)?;
        match next {
            None => return Some((so_far, after)),
            Some(byte) => {
                if !so_far.push(byte) {
                    return None;
                }
            }
        }
        rest = after;
    }
    None
}

/// A text in quotes.
#[tactic(auto, unfolding(crate::specs::Reading::quoted_at))]
pub(crate) fn quoted_at(text: &[u8]) -> Option<(Text, &[u8])>
    ensures { option_map (λ x. (x.0, x.1.now)) result ≡ quoted_at text.now }
{
    let rest = after_word(text, b"\"")?;
    characters_at(rest, LONGEST_STRING + 1)
}
