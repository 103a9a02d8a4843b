//! How a broken rule names a key.

ghost use Rattle.std.specs.Prelude.{◌≡◌, List, ℕ, ◌++◌};
ghost use Rattle.cell_script.specs.Break.{element_key, key_in, shown, shown_byte};
ghost use Rattle.cell_script.specs.Gives.{path_of};

use itoa::Buffer;
use rapid_model::Text;
use rapid_num::is_printable;

/// Where a table is: the script itself, or the element at this index of an array of the script.
#[derive(Clone, Copy)]
pub(crate) enum Path {
    Script,
    Element { array: &'static str, index: usize },
}

impl Path {
    /// The path itself.
    pub(crate) fn shown(&self) -> Text
        ensures { result ≡ shown (path_of self.now) }
    {
        match self {
            Path::Script => Text::new(),
            Path::Element { array, index } => shown_element(array, *index),
        }
    }

    /// A key of the table.
    pub(crate) fn shown_key(&self, key: &str) -> Text
        ensures { result ≡ shown (key_in (path_of self.now) key.now) }
    {
        let mut text = self.shown();
        match self {
            Path::Script => {
                show(&mut text, key.as_bytes());
                text
            }
            Path::Element { .. } => {
                show(&mut text, b".");
                show(&mut text, key.as_bytes());
                text
            }
        }
    }
}

/// The key of the element at this index of an array.
pub(crate) fn shown_element(array: &str, index: usize) -> Text
    ensures { result ≡ shown (element_key array.now index) }
{
    let mut text = Text::new();
    let mut buffer = Buffer::new();
    show(&mut text, array.as_bytes());
    show(&mut text, b"[");
    show(&mut text, buffer.format(index).as_bytes());
    show(&mut text, b"]");
    text
}

/// Appends bytes to what is shown so far.
fn show(text: &mut Text, bytes: &[u8])
    ensures { (front : List ℕ) → text.old ≡ shown front → text.new ≡ shown (front ++ bytes.now) }
{
    for byte in bytes {
        text.push(shown_byte(*byte));
    }
}

fn shown_byte(byte: u8) -> u8
    ensures { result ≡ shown_byte byte }
{
    if is_printable(byte) { byte } else { b'?' }
}
