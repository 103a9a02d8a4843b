use outside::Pace;
use std::sync::atomic::{AtomicU16, Ordering};
use std::thread::yield_now;

/// How many times the first pause of a task checks whether the others have begun theirs.
const LOOKS: u32 = 10_000;

/// A pace that holds the first pause of each of four tasks until all four have begun theirs, so that their next steps
/// come at the same time. It gives up after a number of checks.
#[derive(Drop)]
pub struct Abreast {
    /// Bit k is set if task k has begun its first pause.
    begun: AtomicU16,
}

impl Abreast {
    pub fn new() -> Abreast {
        Abreast {
            begun: AtomicU16::new(0),
        }
    }
}

impl Pace for Abreast {
    fn pause(&self, task: u32) {
        let bit = 1 << (task & 3);
        if self.begun.fetch_or(bit, Ordering::SeqCst) & bit != 0 {
            return;
        }
        for _ in 0..LOOKS {
            if self.begun.load(Ordering::SeqCst) == 0b1111 {
                return;
            }
            yield_now();
        }
    }
}
