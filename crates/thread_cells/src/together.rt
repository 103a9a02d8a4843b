use outside::Pace;
use std::sync::atomic::{AtomicU64, Ordering};

/// How many times the first pause of a task checks whether all have begun theirs.
const TURNS: u32 = 50_000_000;

/// A pace of three tasks that holds the first pause of each until all three have begun theirs, and counts the pauses of
/// each. If two of them run one after the other, the first uses up its checks.
#[derive(Drop)]
pub struct Together {
    first: AtomicU64,
    second: AtomicU64,
    third: AtomicU64,
    used_up: AtomicU64,
}

impl Together {
    pub fn new() -> Together {
        Together {
            first: AtomicU64::new(0),
            second: AtomicU64::new(0),
            third: AtomicU64::new(0),
            used_up: AtomicU64::new(0),
        }
    }

    /// How many pauses the task of this number began.
    pub fn pauses(&self, task: u32) -> u64 {
        self.count(task).load(Ordering::SeqCst)
    }

    /// How many first pauses used up their checks.
    pub fn used_up(&self) -> u64 {
        self.used_up.load(Ordering::SeqCst)
    }

    fn count(&self, task: u32) -> &AtomicU64 {
        match task {
            0 => &self.first,
            1 => &self.second,
            _ => &self.third,
        }
    }

    fn all_begun(&self) -> bool {
        self.pauses(0) > 0 && self.pauses(1) > 0 && self.pauses(2) > 0
    }

    fn wait_for_all(&self) {
        for _ in 0..TURNS {
            if self.all_begun() {
                return;
            }
        }
        self.used_up.fetch_add(1, Ordering::SeqCst);
    }
}

impl Pace for Together {
    fn pause(&self, task: u32) {
        let before = self.count(task).fetch_add(1, Ordering::SeqCst);
        if before == 0 {
            self.wait_for_all();
        }
    }
}
