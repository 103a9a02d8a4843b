ghost use Rattle.std.specs.Prelude.{◌≡◌, ◌+◌, ◌≤◌, ◌++◌, [], length};
ghost use Rattle.state_text.specs.StateLines.{datum_line, datum_text};

use crate::rooms::{FRONT_BYTES, LINE_BYTES};
use arrayvec::ArrayString;
use cell_listing::push_in_braces;
use history_text::shape_words;
use rapid_model::NameText;
use typed_trees::Datum;
use value_text::{push_count, push_name, push_value};

/// Writes `V`, the name of a task, and the name of one of its module data as first spelled, in an array with the number
/// of an element, from 1, in braces; then the value, the number of an interrupt or of a zone, or the shape, `-` until it
/// is defined. Takes no memory.
pub fn write_datum(
    task: &NameText,
    name: &NameText,
    element: Option<usize>,
    datum: &Datum,
    line: &mut ArrayString<LINE_BYTES>,
)
    requires { line.old.bytes ≡ [] }
    ensures { line.new.bytes ≡ datum_line task.now name.now element datum.now }
{
    line.push_str("V ");
    push_name(task, line);
    line.push(' ');
    push_name(name, line);
    push_in_braces(element, line);
    line.push(' ');
    push_datum(datum, line);
    line.push('\n');
}

/// Appends what a datum holds.
fn push_datum(datum: &Datum, line: &mut ArrayString<LINE_BYTES>)
    requires room { length line.old.bytes ≤ FRONT_BYTES }
    ensures text { line.new.bytes ≡ line.old.bytes ++ datum_text datum.now }
    ensures short { length line.new.bytes + 1 ≤ LINE_BYTES }
{
    match datum {
        Datum::Plain(value) => push_value(value, line),
        Datum::Mark(number) => push_count(usize::from(*number), line),
        Datum::Shape(None) => line.push('-'),
        Datum::Shape(Some(shape)) => {
            let mut words = ArrayString::new();
            shape_words(shape.shape(), &mut words);
            line.push_str(words.as_str());
        }
        Datum::Place(_) => {}
    }
}
