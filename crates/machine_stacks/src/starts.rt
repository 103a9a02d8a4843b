ghost use Rattle.std.specs.Prelude.{◌≡◌, map, All, IsTrue, IfOk};
ghost use Rattle.machine_stacks.specs.Starts.{lies_within, index_of};

use crate::run_start::RunStart;
use stack_code::{FirstRun, RoutineRow};
use std::alloc::{AllocError, Global};

/// Where the first values of each routine begin, each in the run that has the value there. If the rows' first values
/// ascend, one pass over rows and runs suffices. Fails only if an allocation fails.
pub fn starts_of(
    alloc: Global,
    rows: &[RoutineRow],
    firsts: &[FirstRun],
) -> Result<Vec<RunStart>, AllocError>
    ensures indexes { IfOk result (λ starts. map (index_of firsts.now) starts.items ≡ map (λ row. row.first) rows.now) }
    ensures within { IfOk result (λ starts. All (λ start. IsTrue (lies_within firsts.now start)) starts.items) }
{
    let mut starts = Vec::with_capacity(alloc, rows.len())?;
    let mut last = RunStart { run: 0, skip: 0 };
    let mut index = 0;
    for row in rows {
        last = moved(firsts, last, index, row.first);
        index = row.first;
        starts.push(last)?;
    }
    Ok(starts)
}

/// The start of another index, in the run that has the value there. Walks on from this one, or from the first run if
/// the index lies before it.
fn moved(firsts: &[FirstRun], from: RunStart, index: u32, to: u32) -> RunStart
    requires from { index_of firsts.now from ≡ index }
    ensures to { index_of firsts.now result ≡ to }
    ensures within { IsTrue (lies_within firsts.now result) }
{
    if index <= to {
        let skip = from.skip + (to - index);
        settled(
            firsts,
            RunStart {
                run: from.run,
                skip,
            },
        )
    } else {
        settled(firsts, RunStart { run: 0, skip: to })
    }
}

/// The same index, in the run that has the value there.
fn settled(firsts: &[FirstRun], start: RunStart) -> RunStart
    ensures same { index_of firsts.now result ≡ index_of firsts.now start }
    ensures within { IsTrue (lies_within firsts.now result) }
{
    let mut run = start.run;
    let mut skip = start.skip;
    while run < firsts.len() && firsts[run].count <= skip {
        skip -= firsts[run].count;
        run += 1;
    }
    RunStart { run, skip }
}
