//! A cell of four tasks that write one persistent, run many times. Whatever the order of a run is, its history is legal
//! and complete.

use crate::abreast::Abreast;
use crate::outcome::{NEVER, PRINTED, outcome_of};
use crate::replay::{is_legal_and_whole, tells_its_history};
use outside::NoPace;
use rapid_model::Event;
use std::fs;
use std::rt::Files;
use std::sync::Wait;
use std::thread::Threads;

/// Of so many runs, how many have a history that the replay finds legal and whole, and a report that tells it.
pub fn replayed<R: Files + AllocGlobal + Threads + Wait + Sync>(
    rt: &R,
    script: &str,
    runs: u32,
) -> anyhow::Result<u32> {
    let mut agreeing = 0u32;
    for _ in 0..runs {
        let left = outcome_of(rt, &["run", script], script, NEVER, &Abreast::new())?;
        if is_legal_and_whole(left.report.history.as_slice(), &[])
            && tells_its_history(&left.report)
        {
            agreeing = agreeing.wrapping_add(1);
        }
    }
    Ok(agreeing)
}

/// Of so many runs, how many have a printed history that an audit finds legal and whole.
pub fn audited<R: Files + AllocGlobal + Threads + Wait + Sync>(
    rt: &R,
    script: &str,
    runs: u32,
) -> anyhow::Result<u32> {
    let mut agreeing = 0u32;
    for _ in 0..runs {
        if is_found_whole(rt, script)? {
            agreeing = agreeing.wrapping_add(1);
        }
    }
    Ok(agreeing)
}

/// Whether an audit finds the printed history of a run legal and whole, with as many events as the run had.
fn is_found_whole<R: Files + AllocGlobal + Threads + Wait + Sync>(
    rt: &R,
    script: &str,
) -> anyhow::Result<bool> {
    let words = &["--history", "run", script];
    let left = outcome_of(rt, words, script, NEVER, &Abreast::new())?;
    fs::write(rt, PRINTED, left.out.bytes())?;
    let words = &["audit", script, PRINTED];
    let audit = outcome_of(rt, words, script, NEVER, &NoPace)?;
    fs::remove_file(rt, PRINTED)?;
    let line = format!(in rt.alloc(); "A legal {} whole\n", left.report.history.len())?;
    Ok(audit.report.status == 0 && audit.out.bytes() == line.as_bytes())
}

/// How many of these the replay refuses of a history: the history with each event lost, with each one doubled, and cut
/// off before each.
pub fn refused(history: &[Event]) -> u32 {
    let mut refused = 0u32;
    for k in 0..history.len() {
        let (before, rest) = history.split_at(k);
        if !is_legal_and_whole(before, &rest[1..]) {
            refused = refused.wrapping_add(1);
        }
        if !is_legal_and_whole(&history[..k + 1], rest) {
            refused = refused.wrapping_add(1);
        }
        if !is_legal_and_whole(before, &[]) {
            refused = refused.wrapping_add(1);
        }
    }
    refused
}
