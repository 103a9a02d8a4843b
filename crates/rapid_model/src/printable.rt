ghost use Rattle.std.specs.Prelude.{◌≡◌, ◌+◌, ◌≤◌, ◌<◌, ◌++◌, [], ◌∷◌, ◌↔◌, length, IsTrue, if◌then◌else◌};
ghost use Rattle.std.specs.List.{list_all};
ghost use Rattle.rapid_num.specs.Characters.{is_printable};
ghost use Rattle.rapid_model.specs.Printable.{ArePrintable, takes};

use arrayvec::ArrayVec;
use rapid_limits::{LONGEST_NAME, LONGEST_STRING};
use rapid_num::is_printable;
use std::marker::Model;

/// A text of at most `ROOM` bytes, each from 20 to 7E hexadecimal. Contracts see it as the list of its bytes.
#[derive(Debug, PartialEq, Eq, Drop)]
pub struct Printable<const ROOM: usize> {
    characters: ArrayVec<u8, ROOM>,
}

impl<const ROOM: usize> Model for Printable<ROOM> {
    ghost use Rattle.std.specs.Prelude.{ℕ, List};
    ghost use Rattle.rapid_model.specs.Printable.{ArePrintable};

    ghost Value = { List ℕ };

    ghost view = { λ t. t.characters.items };

    ghost invariant = { λ t. ArePrintable t.characters.items };

    ghost inverse = { λ bytes. record { characters = record { items = bytes } } };
}

impl<const ROOM: usize> Printable<ROOM> {
    /// The empty text.
    pub fn new() -> Printable<ROOM>
        ensures { result ≡ [] }
    {
        Printable {
            characters: ArrayVec::new(),
        }
    }

    /// Appends a byte. False exactly if the text already has `ROOM` bytes or the byte is outside 20 to 7E hexadecimal;
    /// the text is then unchanged.
    pub fn push(&mut self, byte: u8) -> bool
        ensures taken { result ≡ takes ROOM self.old byte }
        ensures pushed { self.new ≡ (if result then self.old ++ byte ∷ [] else self.old) }
    {
        if !is_printable(byte) {
            return false;
        }
        self.characters.try_push(byte).is_ok()
    }

    /// The bytes.
    pub fn bytes(&self) -> &[u8]
        ensures same { result.now ≡ self.now }
        ensures printable { ArePrintable self.now }
        ensures short { length self.now ≤ ROOM }
    {
        self.characters.as_slice()
    }

    /// An equal text.
    pub fn copy(&self) -> Printable<ROOM>
        ensures { result ≡ self.now }
    {
        let mut characters = ArrayVec::new();
        let copied = characters.try_extend_from_slice(self.characters.as_slice());
        prove!(copied.is_ok());
        Printable { characters }
    }
}

/// A text of at most 80 bytes.
pub type Text = Printable<LONGEST_STRING>;

/// A name of at most 32 bytes.
pub type NameText = Printable<LONGEST_NAME>;

/// Appends printable bytes. The text must have room for them.
pub fn show(text: &mut Text, bytes: &[u8])
    requires room { length text.old + length bytes.now ≤ LONGEST_STRING }
    requires printable { IsTrue (list_all is_printable bytes.now) }
    ensures { text.new ≡ text.old ++ bytes.now }
{
    for byte in bytes {
        text.push(*byte);
    }
}
