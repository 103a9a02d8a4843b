//! Runs cells in its folder on threads, and prints after each line of the standard input what comes of it:
//!
//! - `words WORDS`: whether the words ask for `run`, the status, how many events the report has, and what is printed;
//! - `alone CELL`: the status of `run`, and whether its whole history is that of `round`, as in a cell of one task;
//! - `together CELL`: of three tasks, each held at its first pause until all have begun theirs: the status, the fates, how
//!   many gave up waiting, whether each event of a task is followed by one pause, and the lines of the ends;
//! - `failing CELL`: the status, the fates, whether there are events, and what is printed if the second write fails;
//! - `replayed CELL`: how many of 1,000 runs a replay of the rules finds legal and whole;
//! - `audited CELL`: how many of 100 printed histories an audit finds legal and whole;
//! - `damaged CELL`: how many events the history of `round` has, whether the replay finds it legal and whole, and how many
//!   histories it refuses of those with an event lost, an event doubled, and cut off.
#![tactic(auto)]

mod abreast;
mod counting;
mod outcome;
mod replay;
mod together;

use anyhow::{Context, bail};
use controller::is_run;
use counting::{audited, refused, replayed};
use outcome::{NEVER, Outcome, ends, events_of, outcome_of, printed};
use outside::NoPace;
use rapid_model::Event;
use replay::{is_legal_and_whole, tells_its_history};
use std::mem::size_of;
use std::rt::Files;
use std::sync::Wait;
use std::thread::Threads;
use together::Together;

// A run keeps all its events.
const _: () = prove!(size_of::<Event>() <= 512);

fn main(rt: HostRuntime) -> anyhow::Result<()> {
    for line in rt.lines(rt.alloc()) {
        let line = line?;
        let (what, rest) = line.as_str().split_once(' ').context("two words a line")?;
        let told = told_of(&rt, what, rest)?;
        println!(rt; "{}: {}", line.as_str(), told.as_str())?;
    }
    Ok(())
}

/// What comes of a line.
fn told_of<R: Files + AllocGlobal + Threads + Wait + Sync>(
    rt: &R,
    what: &str,
    rest: &str,
) -> anyhow::Result<String> {
    let alloc = rt.alloc();
    match what {
        "words" => words_told(rt, rest),
        "alone" => alone_told(rt, rest),
        "together" => together_told(rt, rest),
        "failing" => failing_told(rt, rest),
        "replayed" => Ok(format!(in alloc; "{} of 1000", replayed(rt, rest, 1000)?)?),
        "audited" => Ok(format!(in alloc; "{} of 100", audited(rt, rest, 100)?)?),
        "damaged" => damaged_told(rt, rest),
        _ => bail!("{what} is nothing to do"),
    }
}

/// What comes of words.
fn words_told<R: Files + AllocGlobal + Threads + Wait + Sync>(
    rt: &R,
    text: &str,
) -> anyhow::Result<String> {
    let mut words = Vec::new(rt.alloc());
    for word in text.split(' ') {
        words.push(word)?;
    }
    let left = outcome_of(rt, words.as_slice(), "none", NEVER, &NoPace)?;
    Ok(format!(in rt.alloc();
        "{} {} {} {}",
        is_run(words.as_slice()),
        left.report.status,
        left.report.history.len(),
        printed(rt.alloc(), &left)?.as_slice().escape_ascii()
    )?)
}

/// The whole history of `run` beside that of `round`.
fn alone_told<R: Files + AllocGlobal + Threads + Wait + Sync>(
    rt: &R,
    script: &str,
) -> anyhow::Result<String> {
    let by_turns = outcome_of(rt, &["--history", "round", script], script, NEVER, &NoPace)?;
    let alone = outcome_of(rt, &["--history", "run", script], script, NEVER, &NoPace)?;
    let same = by_turns.out.bytes() == alone.out.bytes();
    Ok(format!(in rt.alloc(); "{} {same}", alone.report.status)?)
}

/// The run of three tasks in the middle of their steps at the same time.
fn together_told<R: Files + AllocGlobal + Threads + Wait + Sync>(
    rt: &R,
    script: &str,
) -> anyhow::Result<String> {
    let pace = Together::new();
    let left = outcome_of(rt, &["run", script], script, NEVER, &pace)?;
    let paced = is_paced(&pace, &left);
    Ok(format!(in rt.alloc();
        "{} {:?} {} {paced} {}",
        left.report.status,
        left.report.fates.as_slice(),
        pace.used_up(),
        ends(rt.alloc(), &left)?.as_slice().escape_ascii()
    )?)
}

/// Whether each of three tasks was paced at each of its events.
fn is_paced(pace: &Together, left: &Outcome) -> bool {
    pace.pauses(0) == events_of(&left.report, 0)
        && pace.pauses(1) == events_of(&left.report, 1)
        && pace.pauses(2) == events_of(&left.report, 2)
}

/// The run of a cell whose second write fails.
fn failing_told<R: Files + AllocGlobal + Threads + Wait + Sync>(
    rt: &R,
    script: &str,
) -> anyhow::Result<String> {
    let left = outcome_of(rt, &["run", script], script, 1, &NoPace)?;
    Ok(format!(in rt.alloc();
        "{} {:?} {} {}",
        left.report.status,
        left.report.fates.as_slice(),
        !left.report.history.is_empty(),
        printed(rt.alloc(), &left)?.as_slice().escape_ascii()
    )?)
}

/// What the replay finds of the history of `round`, and of damaged ones.
fn damaged_told<R: Files + AllocGlobal + Threads + Wait + Sync>(
    rt: &R,
    script: &str,
) -> anyhow::Result<String> {
    let left = outcome_of(rt, &["round", script], script, NEVER, &NoPace)?;
    let history = left.report.history.as_slice();
    let whole = is_legal_and_whole(history, &[]) && tells_its_history(&left.report);
    Ok(format!(in rt.alloc(); "{} {whole} {}", history.len(), refused(history))?)
}
