//! Arrivals at a meeting of three tasks.

use crate::three_tasks::ThreeTasks;
use std::test::Fail;
use sync_tasks::Arrived;

/// The tasks.
const A: u32 = 0;

const B: u32 = 1;

const C: u32 = 2;

/// Arrivals in order: the task, whether it meets the others, and whether it was not waiting. A task that does not meet
/// them arrives again until it does.
static ARRIVALS: [(u32, bool, bool); 10] = [
    (C, false, true),
    (A, false, true),
    (B, true, true),
    // The second meeting of B, while A and C wait for the first.
    (B, false, true),
    (A, true, false),
    (A, false, true),
    (C, true, false),
    // A and B wait for the second.
    (C, true, true),
    (A, true, false),
    (B, true, false),
];

#[test]
fn two_meetings(rt: HostRuntime) -> Result<(), Fail> {
    let mut tasks = ThreeTasks::new(rt.alloc())?;
    for (index, (task, met, fresh)) in ARRIVALS.iter().enumerate() {
        let arrived = Arrived {
            met: *met,
            fresh: *fresh,
        };
        assert_eq!(rt; tasks.arrive(*task), Some(arrived), "arrival {index}");
    }
    Ok(())
}
