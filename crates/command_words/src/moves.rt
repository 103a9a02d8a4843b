ghost use Rattle.std.specs.Prelude.{◌≡◌};
ghost use Rattle.command_words.specs.Words.{is_moves, moves_of};

use arrayvec::ArrayString;
use std::str;
use value_text::push_count;

/// The most moves of an arm of the load cell.
const MOST_MOVES: u32 = 1000;

/// How many times each arm of the load cell moves, if the word is such a number: 1 to 1000, in digits without leading
/// zeros.
pub(crate) fn moves_of(word: &[u8]) -> Option<u32>
    ensures { result ≡ moves_of word.now }
{
    let Ok(text) = str::from_utf8(word) else {
        return None;
    };
    let Ok(moves) = text.parse::<u32>() else {
        return None;
    };
    if is_moves(word, moves) {
        Some(moves)
    } else {
        None
    }
}

/// Whether the word is this number, and an arm may move this many times.
fn is_moves(word: &[u8], moves: u32) -> bool
    ensures { result ≡ is_moves word.now moves }
{
    let mut digits = ArrayString::<20>::new();
    push_count(moves as usize, &mut digits);
    digits.as_str().as_bytes() == word && 1 <= moves && moves <= MOST_MOVES
}
