ghost use Rattle.std.specs.Prelude.{◌≡◌, ◌≤◌, ◌<◌, length, MatchOption};
ghost use Rattle.std.specs.Str.{str_to_ascii_lowercase};

use crate::key::{Key, key_of};
use rapid_limits::LONGEST_NAME;
use std::marker::Model;

/// A name to look up in several tables, put into lowercase only once. Contracts see it as the name.
#[derive(Drop)]
pub struct NameKey<'a> {
    name: &'a [u8],
    key: Option<Key>,
}

impl<'a> Model for NameKey<'a> {
    ghost use Rattle.std.specs.Prelude.{◌≡◌, ◌≤◌, ◌<◌, ℕ, List, length, MatchOption};
    ghost use Rattle.std.specs.Str.{str_to_ascii_lowercase};
    ghost use Rattle.rapid_limits.specs.declared.TheConstants.{LONGEST_NAME};

    ghost Value = { List ℕ };

    ghost view = { λ k. k.name.now };

    // A name of more than 32 bytes has no key.
    ghost invariant = { λ k. MatchOption k.key (LONGEST_NAME < length k.name.now) (λ key. (key.items ≡ str_to_ascii_lowercase k.name.now) × (length k.name.now ≤ LONGEST_NAME)) };
}

impl<'a> NameKey<'a> {
    /// The name, to look up.
    pub fn new(name: &'a [u8]) -> NameKey<'a>
        ensures { result ≡ name.now }
    {
        NameKey {
            name,
            key: key_of(name),
        }
    }

    /// The name as it was given.
    pub fn name(&self) -> &'a [u8]
        ensures { result.now ≡ self.now }
    {
        self.name
    }

    /// The name in lowercase. `None` exactly if it has more than 32 bytes.
    pub(crate) fn key(&self) -> Option<&Key>
        ensures { MatchOption result (LONGEST_NAME < length self.now) (λ key. (key.now.items ≡ str_to_ascii_lowercase self.now) × (length self.now ≤ LONGEST_NAME)) }
    {
        self.key.as_ref()
    }
}
