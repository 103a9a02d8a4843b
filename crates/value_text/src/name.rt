ghost use Rattle.std.specs.Prelude.{◌≡◌, ◌+◌, ◌≤◌, ◌++◌, length};

use arrayvec::ArrayString;
use rapid_limits::LONGEST_NAME;
use rapid_model::NameText;
use std::str;

/// Appends the bytes of a name.
#[tactic(auto, using(crate::proofs::Printable::utf8_from_printable))]
pub fn push_name<const N: usize>(name: &NameText, line: &mut ArrayString<N>)
    requires room { length line.old.bytes + LONGEST_NAME ≤ N }
    ensures text { line.new.bytes ≡ line.old.bytes ++ name.now }
    ensures short { length line.new.bytes ≤ length line.old.bytes + LONGEST_NAME }
{
    line.push_str(str::from_utf8(name.bytes()).unwrap());
}
