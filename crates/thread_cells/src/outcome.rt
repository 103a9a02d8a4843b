//! Calls of the controller, with all that they leave.

use anyhow::Context;
use controller::Report;
use outside::{FileShelf, MemorySink, Pace};
use std::alloc::{AllocError, Global};
use std::rt::Files;
use std::sync::Wait;
use std::thread::Threads;

/// The file of the history that is audited.
pub const PRINTED: &str = "printed_history";

/// The number of a write that is never reached.
pub const NEVER: u32 = 4_096;

/// The report of a call, and what it printed.
#[derive(Drop)]
pub struct Outcome {
    pub report: Report,
    pub out: MemorySink,
    pub err: MemorySink,
}

/// Does what the words say with the cell of this script; the write with this number to the first sink fails.
pub fn outcome_of<R: Files + AllocGlobal + Threads + Wait + Sync, P: Pace + Sync>(
    rt: &R,
    words: &[&str],
    script: &str,
    failing_write: u32,
    pace: &P,
) -> anyhow::Result<Outcome> {
    let alloc = rt.alloc();
    let mut shelf = FileShelf::with_history(rt, script, PRINTED);
    let mut failing = Vec::new(alloc);
    failing.push(failing_write)?;
    let mut out = MemorySink::new(alloc, 10_000, failing)
        .ok()
        .context("memory")?;
    let mut err = MemorySink::new(alloc, 100, Vec::new(alloc))
        .ok()
        .context("memory")?;
    let report = controller::controller(rt, alloc, words, &mut shelf, &mut out, &mut err, pace);
    Ok(Outcome { report, out, err })
}

/// What a call printed on both sinks.
pub fn printed(alloc: Global, outcome: &Outcome) -> Result<Vec<u8>, AllocError> {
    let mut bytes = Vec::from_slice(alloc, outcome.out.bytes())?;
    bytes.extend_from_slice(outcome.err.bytes())?;
    Ok(bytes)
}

/// The lines of the ends of tasks among those that a call printed on the first sink.
pub fn ends(alloc: Global, outcome: &Outcome) -> Result<Vec<u8>, AllocError> {
    let mut bytes = Vec::new(alloc);
    for line in outcome.out.bytes().split_inclusive(|byte| *byte == b'\n') {
        if line.starts_with(b"E ") {
            bytes.extend_from_slice(line)?;
        }
    }
    Ok(bytes)
}

/// How many events of the history belong to the task of this number.
pub fn events_of(report: &Report, task: u32) -> u64 {
    let mut count = 0u64;
    for event in &report.history {
        if event.actor == task {
            count = count.saturating_add(1);
        }
    }
    count
}
