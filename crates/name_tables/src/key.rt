ghost use Rattle.std.specs.Prelude.{◌≡◌, ◌≤◌, ◌<◌, length, MatchOption};
ghost use Rattle.std.specs.Str.{str_to_ascii_lowercase};

use arrayvec::ArrayVec;
use rapid_limits::LONGEST_NAME;

/// A name in lowercase.
pub(crate) type Key = ArrayVec<u8, LONGEST_NAME>;

/// The name in lowercase. `None` exactly if it has more than 32 bytes.
pub(crate) fn key_of(name: &[u8]) -> Option<Key>
    ensures { MatchOption result (LONGEST_NAME < length name.now) (λ key. (key.items ≡ str_to_ascii_lowercase name.now) × (length name.now ≤ LONGEST_NAME)) }
{
    if name.len() > LONGEST_NAME {
        return None;
    }
    let mut key = ArrayVec::new();
    for byte in name {
        key.push(byte.to_ascii_lowercase());
    }
    Some(key)
}
