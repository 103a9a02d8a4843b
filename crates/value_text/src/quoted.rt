//! Strings in quotes.

ghost use Rattle.std.specs.Prelude.{◌≡◌, ◌+◌, ◌<◌, ◌≤◌, ◌++◌, length};
ghost use Rattle.value_text.specs.ValueText.{quoted_byte, quoted_text};

use crate::rooms::QUOTED_BYTES;
use arrayvec::ArrayString;
use rapid_model::Text;

/// Appends a string in quotes.
pub(crate) fn push_quoted<const N: usize>(text: &Text, line: &mut ArrayString<N>)
    requires room { length line.old.bytes + QUOTED_BYTES ≤ N }
    ensures text { line.new.bytes ≡ line.old.bytes ++ quoted_text text.now }
    ensures short { length line.new.bytes ≤ length line.old.bytes + QUOTED_BYTES }
{
    line.push('"');
    for byte in text.bytes() {
        push_byte(*byte, line);
    }
    line.push('"');
}

/// Appends a byte as written in quotes.
fn push_byte<const N: usize>(byte: u8, line: &mut ArrayString<N>)
    requires ascii { byte < 128 }
    requires room { length line.old.bytes + 2 ≤ N }
    ensures text { line.new.bytes ≡ line.old.bytes ++ quoted_byte byte }
    ensures short { length line.new.bytes ≤ length line.old.bytes + 2 }
{
    if byte == b'"' || byte == b'\\' {
        line.push(char::from(byte));
    }
    line.push(char::from(byte));
}
