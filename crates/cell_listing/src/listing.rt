ghost use Rattle.std.specs.Prelude.{◌≡◌, ◌<◌, [], length, slice_get, Some};
ghost use Rattle.std.specs.Option.{option_map};
ghost use Rattle.cell_listing.specs.OpListing.{op_text};

use crate::args::push_args;
use crate::names::op_name;
use crate::op_rooms::OPERATION_BYTES;
use arrayvec::ArrayString;
use stack_code::Op;

/// Writes the operation at a place in code, from 0: its name and its operands, each after a space. Takes no memory.
pub fn listing_line(ops: &[Op], pc: u32, line: &mut ArrayString<OPERATION_BYTES>)
    requires in_code { pc < length ops.now }
    requires empty { line.old.bytes ≡ [] }
    ensures { option_map op_text (slice_get ops.now pc) ≡ Some line.new.bytes }
{
    let op = &ops[pc as usize];
    line.push_str(op_name(op));
    push_args(op, line);
}
