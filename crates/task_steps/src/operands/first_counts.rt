//! First values in runs: copies of the runs, and the number of values.

ghost use Rattle.std.specs.Prelude.{◌≡◌, ◌≤◌, length, IfOk};
ghost use Rattle.machine_stacks.specs.Starts.{values_from};

use machine_stacks::RunStart;
use stack_code::FirstRun;
use std::alloc::{AllocError, Global};

/// A copy of the runs. Fails only if an allocation fails.
pub(crate) fn copied(alloc: Global, runs: &[FirstRun]) -> Result<Vec<FirstRun>, AllocError>
    ensures { IfOk result (λ copies. copies.items ≡ runs.now) }
{
    let mut copies = Vec::with_capacity(alloc, runs.len())?;
    for run in runs {
        let datum = run.datum.copy(alloc)?;
        let count = run.count;
        copies.push(FirstRun { datum, count })?;
    }
    Ok(copies)
}

/// The number of values from a place on, at most `most`. Takes time proportional to the runs that it passes.
pub(crate) fn count_from(firsts: &[FirstRun], start: RunStart, most: usize) -> usize
    ensures count { result ≡ length (values_from firsts.now start most) }
    ensures few { result ≤ most }
{
    let mut run = start.run;
    let mut skip = start.skip;
    let mut left = most;
    while left > 0 && run < firsts.len() {
        let first = &firsts[run];
        let passed = skip.min(first.count);
        let taken = left.min((first.count - passed) as usize);
        skip -= passed;
        left -= taken;
        run += 1;
    }
    most - left
}
