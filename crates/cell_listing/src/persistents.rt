//! The lines of persistents.

ghost use Rattle.std.specs.Prelude.{◌≡◌, ◌+◌, ◌≤◌, ◌++◌, [], length};
ghost use Rattle.cell_listing.specs.Listing.{in_braces, owner_text, pers_line};

use crate::rooms::LINE_BYTES;
use arrayvec::ArrayString;
use rapid_limits::LONGEST_NAME;
use rapid_model::{PersCell, TaskRow};
use value_text::{COUNT_BYTES, push_count, push_name, sort_name};

/// Writes `P` and the number of a persistent, from 0; its owner, `*` if all tasks share it; its type, with the length
/// in braces for an array; and its name as first spelled. Takes no memory.
pub fn write_persistent(
    tasks: &[TaskRow],
    number: usize,
    row: &PersCell,
    line: &mut ArrayString<LINE_BYTES>,
)
    requires { line.old.bytes ≡ [] }
    ensures { line.new.bytes ≡ pers_line tasks.now number row.now }
{
    line.push_str("P");
    push_count(number, line);
    line.push(' ');
    push_owner(tasks, row.owner, line);
    line.push(' ');
    line.push_str(sort_name(row.sort));
    push_in_braces(number_of(row.len), line);
    line.push(' ');
    push_name(&row.name, line);
    line.push('\n');
}

/// Appends the owner of a persistent: a task, or `*` if all tasks share it.
pub fn push_owner<const N: usize>(tasks: &[TaskRow], owner: Option<u32>, line: &mut ArrayString<N>)
    requires room { length line.old.bytes + LONGEST_NAME ≤ N }
    ensures text { line.new.bytes ≡ line.old.bytes ++ owner_text tasks.now owner }
    ensures short { length line.new.bytes ≤ length line.old.bytes + LONGEST_NAME }
{
    match owner {
        None => line.push_str("*"),
        Some(task) => {
            if let Some(row) = tasks.get(task as usize) {
                push_name(&row.name, line);
            }
        }
    }
}

/// Appends a number in braces, if there is one: the length of an array, or the number of one of its elements.
pub fn push_in_braces<const N: usize>(number: Option<usize>, line: &mut ArrayString<N>)
    requires room { length line.old.bytes + COUNT_BYTES + 2 ≤ N }
    ensures text { line.new.bytes ≡ line.old.bytes ++ in_braces number }
    ensures short { length line.new.bytes ≤ length line.old.bytes + COUNT_BYTES + 2 }
{
    if let Some(number) = number {
        line.push('{');
        push_count(number, line);
        line.push('}');
    }
}

/// The length of an array as a number.
fn number_of(len: Option<u16>) -> Option<usize>
    ensures { result ≡ len }
{
    match len {
        None => None,
        Some(len) => Some(usize::from(len)),
    }
}
