ghost use Rattle.std.specs.Prelude.{◌≡◌, []};
ghost use Rattle.state_text.specs.StateLines.{value_line};

use crate::rooms::LINE_BYTES;
use arrayvec::ArrayString;
use cell_listing::{push_in_braces, push_owner};
use rapid_model::{PersCell, TaskRow, Value};
use value_text::{push_count, push_name, push_value};

/// Writes `P` and the number of a persistent, from 0; its owner, `*` if all tasks share it; its name as first spelled,
/// in an array with the number of an element, from 1, in braces; and the value. Takes no memory.
pub fn write_value(
    tasks: &[TaskRow],
    number: usize,
    row: &PersCell,
    element: Option<usize>,
    value: &Value,
    line: &mut ArrayString<LINE_BYTES>,
)
    requires { line.old.bytes ≡ [] }
    ensures { line.new.bytes ≡ value_line tasks.now number row.now element value.now }
{
    line.push_str("P");
    push_count(number, line);
    line.push(' ');
    push_owner(tasks, row.owner, line);
    line.push(' ');
    push_name(&row.name, line);
    push_in_braces(element, line);
    line.push(' ');
    push_value(value, line);
    line.push('\n');
}
