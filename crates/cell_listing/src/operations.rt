//! The lines of operations.

ghost use Rattle.std.specs.Prelude.{◌≡◌, ◌+◌, ◌<◌, ◌≤◌, ◌++◌, [], length, slice_get, Some};
ghost use Rattle.std.specs.Option.{option_map};
ghost use Rattle.cell_listing.specs.Listing.{code_line};
ghost use Rattle.cell_listing.specs.OpListing.{op_text};

use crate::rooms::LINE_BYTES;
use crate::{OPERATION_BYTES, listing_line};
use arrayvec::ArrayString;
use rapid_model::NameText;
use stack_code::Op;
use value_text::{push_count, push_name};

/// Writes `C`, the name of a task, a place in its code, from 0, and the operation there. Takes no memory.
pub fn write_operation(task: &NameText, ops: &[Op], pc: u32, line: &mut ArrayString<LINE_BYTES>)
    requires in_code { pc < length ops.now }
    requires empty { line.old.bytes ≡ [] }
    ensures { option_map (code_line task.now pc) (slice_get ops.now pc) ≡ Some line.new.bytes }
{
    line.push_str("C ");
    push_name(task, line);
    line.push(' ');
    push_count(pc as usize, line);
    line.push(' ');
    push_operation(ops, pc, line);
    line.push('\n');
}

/// Appends an operation.
fn push_operation(ops: &[Op], pc: u32, line: &mut ArrayString<LINE_BYTES>)
    requires in_code { pc < length ops.now }
    requires room { length line.old.bytes + OPERATION_BYTES ≤ LINE_BYTES }
    ensures text { option_map (λ op. line.old.bytes ++ op_text op) (slice_get ops.now pc) ≡ Some line.new.bytes }
    ensures short { length line.new.bytes ≤ length line.old.bytes + OPERATION_BYTES }
{
    let mut text = ArrayString::new();
    listing_line(ops, pc, &mut text);
    line.push_str(text.as_str());
}
