ghost use Rattle.std.specs.Prelude.{◌≡◌, ◌+◌, ◌≤◌, ◌++◌, length};
ghost use Rattle.machine_stacks.specs.Starts.{values_from};

use crate::run_start::RunStart;
use crate::words::Words;
use stack_code::FirstRun;

/// Appends copies of `count` first values from a start on, or of all of them if there are fewer. Does not allocate;
/// takes time proportional to their number.
pub(crate) fn append_firsts(values: &mut Words, firsts: &[FirstRun], start: RunStart, count: usize)
    requires room { length values.old.items + length (values_from firsts.now start count) ≤ values.old.room }
    ensures appended { values.new.items ≡ values.old.items ++ values_from firsts.now start count }
    ensures room { values.new.room ≡ values.old.room }
{
    let mut run = start.run;
    let mut skip = start.skip;
    let mut left = count;
    while left > 0 && run < firsts.len() {
        let first = &firsts[run];
        let passed = skip.min(first.count);
        let taken = left.min((first.count - passed) as usize);
        values.push_alike(&first.datum, taken);
        skip -= passed;
        left -= taken;
        run += 1;
    }
}
