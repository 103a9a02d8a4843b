//! How a thread that waits lets others work.

use std::hint::spin_loop;
use std::sync::Wait;
use std::sync::atomic::AtomicU64;
use std::thread::yield_now;
use std::time::Duration;

/// This many pauses spin twice as often as the one before. Each later one that spins also yields the processor.
const SPINS_DOUBLED: u32 = 6;

/// This many pauses spin. Each later one sleeps.
const AWAKE: u32 = 26;

/// The shortest sleep, in microseconds.
const SHORTEST: u64 = 60;

/// This many sleeps are twice as long as the one before. Each later one is as long as the last of these.
const SLEEPS_DOUBLED: u32 = 3;

/// The pauses of a thread that waits. They grow from a few nanoseconds to about half a millisecond.
#[derive(Clone, Copy)]
pub struct Backoff {
    pauses: u32,
}

impl Backoff {
    /// No pause yet.
    pub(crate) fn new() -> Backoff {
        Backoff { pauses: 0 }
    }

    /// The same pauses, or none if the wait is over.
    pub(crate) fn until(self, over: bool) -> Backoff {
        if over { Backoff::new() } else { self }
    }

    /// The next pause.
    pub(crate) fn pause<R: Wait>(&mut self, rt: &R) {
        if self.pauses >= AWAKE {
            sleep(rt, self.pauses - AWAKE);
        } else {
            spin(1 << self.pauses.min(SPINS_DOUBLED));
            if self.pauses > SPINS_DOUBLED {
                yield_now();
            }
        }
        self.pauses = self.pauses.saturating_add(1);
    }
}

fn spin(times: u32) {
    for _ in 0..times {
        spin_loop();
    }
}

/// Sleeps, after this many sleeps.
fn sleep<R: Wait>(rt: &R, sleeps: u32) {
    let micros = SHORTEST << sleeps.min(SLEEPS_DOUBLED);
    // No other thread has the word, so only the timeout ends the sleep.
    AtomicU64::new(0).park_timeout(rt, 0, Duration::from_micros(micros));
}
