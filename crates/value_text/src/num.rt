ghost use Rattle.std.specs.Prelude.{◌≡◌, ◌+◌, ◌≤◌, ◌++◌, length};
ghost use Rattle.rapid_num.specs.NumText.{shortest_text};

use crate::rooms::NUM_BYTES;
use arrayvec::ArrayString;
use rapid_num::{Num, write_num};

/// Appends a num without needless digits.
pub fn push_num<const N: usize>(number: Num, line: &mut ArrayString<N>)
    requires room { length line.old.bytes + NUM_BYTES ≤ N }
    ensures text { line.new.bytes ≡ line.old.bytes ++ shortest_text number }
    ensures short { length line.new.bytes ≤ length line.old.bytes + NUM_BYTES }
{
    let mut text = ArrayString::new();
    write_num(number, &mut text);
    line.push_str(text.as_str());
}
