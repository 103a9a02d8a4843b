//! Reading from the left.

ghost use Rattle.std.specs.Prelude.{◌≡◌};
ghost use Rattle.std.specs.Option.{option_map};
ghost use Rattle.std.specs.Str.{bytes_eq};
ghost use Rattle.history_text.specs.Reading.{after_word, truth_at};

/// What follows a word, if the text starts with it. Most texts differ from most words in the first byte.
#[tactic(auto, using(crate::proofs::AfterWord::empty_text), unfolding(crate::specs::Reading::after_word))]
pub(crate) fn after_word<'a>(text: &'a [u8], word: &[u8]) -> Option<&'a [u8]>
    ensures { option_map (λ x. x.now) result ≡ after_word word.now text.now }
{
    let mut rest = text;
    for byte in word {
        let [first, more @ ..] = rest else {
            return None;
        };
        if first != byte {
            return None;
        }
        rest = more;
    }
    Some(rest)
}

/// Whether two texts are the same.
#[tactic(auto, using(crate::proofs::AfterWord::same_after_some, crate::proofs::AfterWord::same_after_none))]
pub(crate) fn is_same(text: &[u8], other: &[u8]) -> bool
    ensures { result ≡ bytes_eq text.now other.now }
{
    match after_word(text, other) {
        Some(rest) => rest.is_empty(),
        None => false,
    }
}

/// A truth value.
#[tactic(auto, unfolding(crate::specs::Reading::truth_at))]
pub(crate) fn truth_at(text: &[u8]) -> Option<(bool, &[u8])>
    ensures { option_map (λ x. (x.0, x.1.now)) result ≡ truth_at text.now }
{
    if let Some(rest) = after_word(text, b"TRUE") {
        return Some((true, rest));
    }
    let rest = after_word(text, b"FALSE")?;
    Some((false, rest))
}
