ghost use Rattle.std.specs.Prelude.{◌≡◌, ◌+◌, ◌≤◌, ◌++◌, decimal, length};

use crate::rooms::COUNT_BYTES;
use arrayvec::ArrayString;
use itoa::Buffer;

/// Appends the digits of a whole number.
pub fn push_count<const N: usize>(number: usize, line: &mut ArrayString<N>)
    requires room { length line.old.bytes + COUNT_BYTES ≤ N }
    ensures text { line.new.bytes ≡ line.old.bytes ++ decimal number }
    ensures short { length line.new.bytes ≤ length line.old.bytes + COUNT_BYTES }
{
    let mut digits = Buffer::new();
    line.push_str(digits.format(number));
}
