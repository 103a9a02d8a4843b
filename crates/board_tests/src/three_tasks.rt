use std::alloc::Global;
use std::marker::Model;
use std::test::Fail;
use sync_tasks::{Arrived, Meetings};

/// The one meeting of tasks 0, 1 and 2, and how many arrivals there were; at most 100 are made.
#[derive(Drop)]
pub(crate) struct ThreeTasks {
    meetings: Meetings,
    arrivals: u32,
}

impl Model for ThreeTasks {
    ghost use Rattle.std.specs.Prelude.{ℕ};
    ghost use Rattle.board_tests.specs.Boards.{IsThree};

    ghost Value = { ℕ };

    ghost view = { λ t. t.arrivals };

    ghost invariant = { λ t. IsThree t.meetings t.arrivals };
}

impl ThreeTasks {
    pub(crate) fn new(alloc: Global) -> Result<ThreeTasks, Fail> {
        Ok(ThreeTasks {
            meetings: Meetings::new(alloc, 3, 1).ok().ok_or("memory")?,
            arrivals: 0,
        })
    }

    /// A task arrives at the meeting of all three.
    pub(crate) fn arrive(&mut self, task: u32) -> Option<Arrived> {
        if task >= 3 || self.arrivals >= 100 {
            return None;
        }
        self.arrivals += 1;
        Some(self.meetings.arrive(task, 0, 0b111))
    }
}
