ghost use Rattle.std.specs.Prelude.{◌≡◌, ◌+◌, ◌-◌, ◌≤◌, ◌++◌, length, take, drop};

use crate::words::Words;

/// Moves the rest of a row, from an index on, to the end of another row, in order. Does not allocate.
pub(crate) fn move_tail(from: &mut Words, at: usize, to: &mut Words)
    requires within { at ≤ length from.old.items }
    requires room { length to.old.items + (length from.old.items - at) ≤ to.old.room }
    ensures moved { to.new.items ≡ to.old.items ++ drop at from.old.items }
    ensures rest { from.new.items ≡ take at from.old.items }
    ensures to_room { to.new.room ≡ to.old.room }
    ensures from_room { from.new.room ≡ from.old.room }
{
    for index in at..from.len() {
        to.push_from(from, index);
    }
    from.truncate(at);
}
