//! The lines of signals.

ghost use Rattle.std.specs.Prelude.{◌≡◌, ◌≤◌, [], length};
ghost use Rattle.cell_listing.specs.Listing.{kind_text, signal_line};

use crate::rooms::LINE_BYTES;
use arrayvec::ArrayString;
use rapid_model::SignalRow;
use value_text::{push_count, push_name};

/// Writes `D` and the number of a signal, from 0; `di` for an input, `do` for an output; and its name. Takes no memory.
pub fn write_signal(number: usize, row: &SignalRow, line: &mut ArrayString<LINE_BYTES>)
    requires { line.old.bytes ≡ [] }
    ensures { line.new.bytes ≡ signal_line number row.now }
{
    line.push_str("D");
    push_count(number, line);
    line.push(' ');
    line.push_str(kind_name(row.output));
    line.push(' ');
    push_name(&row.name, line);
    line.push('\n');
}

fn kind_name(output: bool) -> &'static str
    ensures name { result.now ≡ kind_text output }
    ensures short { length result.now ≤ 2 }
{
    if output { "do" } else { "di" }
}
