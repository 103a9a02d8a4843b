//! Runs the examples in its folder, and prints of each run whether the status and the lines are those kept with the
//! example; of `run` the status and the fates of the tasks. A line of the standard input names an action and an
//! example; `history` is `round` with the whole history, and `state` shows where the cell is after the history in the file
//! `so_far` beside the example. For `audit` the whole histories that `round` and `run` print are
//! audited: each must be found legal and whole, with an event for each of its lines of events.
#![tactic(auto)]

use anyhow::Context;
use outside::{FileShelf, MemorySink, NoPace, StreamSink};
use std::fs;
use std::rt::Files;
use std::sync::Wait;
use std::thread::Threads;

/// The most bytes that a run may print.
const ROOM: usize = 65_536;

/// The file of the history that is audited.
const PRINTED: &str = "printed_history";

/// The file beside an example with the history whose state is printed.
const SO_FAR: &str = "so_far";

fn main(rt: HostRuntime) -> anyhow::Result<()> {
    for line in rt.lines(rt.alloc()) {
        let line = line?;
        let (action, example) = line.as_str().split_once(' ').context("two words a line")?;
        match difference(&rt, action, example)? {
            None => println!(rt; "{action} {example}")?,
            Some(got) => println!(rt;
                "{action} {example} differs:\n{}",
                got.as_slice().escape_ascii()
            )?,
        }
    }
    Ok(())
}

/// What an action on an example does, if it is not what is wanted.
fn difference<R: Files + AllocGlobal + Threads + Wait + Sync>(
    rt: &R,
    action: &str,
    example: &str,
) -> anyhow::Result<Option<Vec<u8>>> {
    if action != "audit" {
        let kept = format!(in rt.alloc(); "{example}/{action}.txt")?;
        let wanted = fs::read(rt, kept.as_str())?;
        let got = run(rt, action, example)?;
        return Ok(unless_same(got, wanted.as_slice()));
    }
    match refused_audit(rt, "round", example)? {
        None => refused_audit(rt, "run", example),
        got => Ok(got),
    }
}

/// What an audit of the whole history that an action prints of an example finds, if that is not legal and whole.
fn refused_audit<R: Files + AllocGlobal + Threads + Wait + Sync>(
    rt: &R,
    action: &str,
    example: &str,
) -> anyhow::Result<Option<Vec<u8>>> {
    let script = format!(in rt.alloc(); "{example}/cell.toml")?;
    let script = script.as_str();
    print_history(rt, action, script)?;
    let events = lines_of_events(fs::read(rt, PRINTED)?.as_slice());
    let wanted = format!(in rt.alloc(); "status 0\nA legal {events} whole\n")?;
    let got = told_by(rt, &["audit", script, PRINTED], script, PRINTED, true)?;
    fs::remove_file(rt, PRINTED)?;
    Ok(unless_same(got, wanted.as_bytes()))
}

/// Writes the whole history that an action prints into the file that is audited.
fn print_history<R: Files + AllocGlobal + Threads + Wait + Sync>(
    rt: &R,
    action: &str,
    script: &str,
) -> anyhow::Result<()> {
    let mut shelf = FileShelf::new(rt, script);
    let mut out = StreamSink::new(fs::create(rt, PRINTED)?);
    let mut err = MemorySink::new(rt.alloc(), ROOM, Vec::new(rt.alloc()))
        .ok()
        .context("memory")?;
    let words = &["--history", action, script];
    controller::controller(
        rt,
        rt.alloc(),
        words,
        &mut shelf,
        &mut out,
        &mut err,
        &NoPace,
    );
    Ok(())
}

/// How many lines of a text are those of events.
fn lines_of_events(text: &[u8]) -> usize {
    text.split(|byte| *byte == b'\n')
        .filter(|line| line.starts_with(b"H "))
        .count()
}

/// What was told, if it is not what is wanted.
fn unless_same(got: Vec<u8>, wanted: &[u8]) -> Option<Vec<u8>> {
    if got.as_slice() == wanted {
        None
    } else {
        Some(got)
    }
}

/// The status of an action on an example and what it prints, as kept with the examples.
fn run<R: Files + AllocGlobal + Threads + Wait + Sync>(
    rt: &R,
    action: &str,
    example: &str,
) -> anyhow::Result<Vec<u8>> {
    let script = format!(in rt.alloc(); "{example}/cell.toml")?;
    let script = script.as_str();
    match action {
        "history" => told_by(rt, &["--history", "round", script], script, PRINTED, true),
        // The order of the other lines may differ from one `run` to the next.
        "run" => told_by(rt, &["run", script], script, PRINTED, false),
        "state" => {
            let history = format!(in rt.alloc(); "{example}/{SO_FAR}")?;
            let history = history.as_str();
            told_by(rt, &["state", script, history], script, history, true)
        }
        _ => told_by(rt, &[action, script], script, PRINTED, true),
    }
}

/// The status of these words, with the history in the file of that name, and what they print: all lines, or of those on
/// the standard output only the fates of the tasks.
fn told_by<R: Files + AllocGlobal + Threads + Wait + Sync>(
    rt: &R,
    words: &[&str],
    script: &str,
    history: &str,
    all: bool,
) -> anyhow::Result<Vec<u8>> {
    let alloc = rt.alloc();
    let mut shelf = FileShelf::with_history(rt, script, history);
    let mut out = MemorySink::new(alloc, ROOM, Vec::new(alloc))
        .ok()
        .context("memory")?;
    let mut err = MemorySink::new(alloc, ROOM, Vec::new(alloc))
        .ok()
        .context("memory")?;
    let report = controller::controller(rt, alloc, words, &mut shelf, &mut out, &mut err, &NoPace);
    let mut told = format!(in alloc; "status {}\n", report.status)?.into_bytes();
    for line in out.bytes().split_inclusive(|byte| *byte == b'\n') {
        if all || line.starts_with(b"E ") {
            told.extend_from_slice(line)?;
        }
    }
    told.extend_from_slice(err.bytes())?;
    Ok(told)
}
