//! The lines of meetings.

ghost use Rattle.std.specs.Prelude.{◌≡◌, []};
ghost use Rattle.cell_listing.specs.Listing.{meeting_line};

use crate::rooms::LINE_BYTES;
use arrayvec::ArrayString;
use rapid_model::NameText;
use value_text::{push_count, push_name};

/// Writes `G` and the number of a meeting, from 0, and its name as first spelled. Takes no memory.
pub fn write_meeting(number: usize, name: &NameText, line: &mut ArrayString<LINE_BYTES>)
    requires { line.old.bytes ≡ [] }
    ensures { line.new.bytes ≡ meeting_line number name.now }
{
    line.push_str("G");
    push_count(number, line);
    line.push(' ');
    push_name(name, line);
    line.push('\n');
}
