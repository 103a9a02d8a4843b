//! Reads from shelves and writes to sinks as the lines of the standard input say, and prints after each line what comes
//! of it:
//!
//! - `memory NAME: NAME LIMIT; ..`: reads from two files in memory, of which the third read fails: after a read of the
//!   first name one of `a` with the limit 2, and then the others;
//! - `sink TEXT ..`: writes to three bytes of memory, of which the second write fails; then the bytes and the calls;
//! - `write NAME TEXT` and `remove NAME`: a file that is written, and removed again;
//! - `script NAME: NAME LIMIT; ..` and `history SCRIPT NAME: NAME LIMIT; ..`: reads of the files of a cell's script, and
//!   of one with a printed history.
//!
//! Of a read it prints the result, and all that was read so far.
#![tactic(auto)]

mod reads;

use anyhow::{Context, bail};
use outside::{Failed, FileShelf, MemoryShelf, MemorySink, Sink, StreamSink};
use reads::{add_reads, second_read};
use std::alloc::{AllocError, Global};
use std::fs;
use std::rt::Files;

fn main(rt: HostRuntime) -> anyhow::Result<()> {
    for line in rt.lines(rt.alloc()) {
        let line = line?;
        let (what, rest) = line.as_str().split_once(' ').context("two words a line")?;
        let told = told_of(&rt, what, rest)?;
        println!(rt; "{}: {}", line.as_str(), told.as_str())?;
    }
    Ok(())
}

/// What comes of a line.
fn told_of<R: Files + AllocGlobal>(rt: &R, what: &str, rest: &str) -> anyhow::Result<String> {
    match what {
        "memory" => memory_told(rt.alloc(), rest),
        "sink" => sink_told(rt.alloc(), rest),
        "write" => written(rt, rest),
        "remove" => removed(rt, rest),
        "script" => script_told(rt, rest),
        "history" => history_told(rt, rest),
        _ => bail!("{what} is nothing to do"),
    }
}

/// The files `a`, of two bytes, and `ab`, of one byte. The third read fails.
fn two_files(alloc: Global) -> Result<MemoryShelf, AllocError> {
    let mut files = Vec::new(alloc);
    files.push((
        String::from_str(alloc, "a")?,
        Vec::from_slice(alloc, b"xy")?,
    ))?;
    files.push((
        String::from_str(alloc, "ab")?,
        Vec::from_slice(alloc, b"z")?,
    ))?;
    let mut failing = Vec::new(alloc);
    failing.push(2)?;
    Ok(MemoryShelf::new(files, failing))
}

fn memory_told(alloc: Global, text: &str) -> anyhow::Result<String> {
    let (first, rest) = text.split_once(": ").context("a name and reads")?;
    let mut shelf = two_files(alloc)?;
    let mut into = Vec::new(alloc);
    let read = second_read(&mut shelf, alloc, first, "a", 2, &mut into);
    let mut told = format!(in alloc; "{read:?} {}", into.as_slice().escape_ascii())?;
    told.push_str("; ")?;
    add_reads(alloc, &mut shelf, rest, &mut into, &mut told)?;
    Ok(told)
}

fn sink_told(alloc: Global, text: &str) -> anyhow::Result<String> {
    let mut failing = Vec::new(alloc);
    failing.push(1)?;
    let mut sink = MemorySink::new(alloc, 3, failing).ok().context("memory")?;
    let mut told = String::new(alloc);
    for piece in text.split(' ') {
        let write = write_to(&mut sink, piece.as_bytes())?;
        told.push_str(format!(in alloc; "{write:?}; ")?.as_str())?;
    }
    let bytes = sink.bytes().escape_ascii();
    told.push_str(format!(in alloc; "{bytes} {:?}", sink.calls())?.as_str())?;
    Ok(told)
}

/// One write of bytes that are not none.
fn write_to<S: Sink>(sink: &mut S, piece: &[u8]) -> anyhow::Result<Result<usize, Failed>> {
    if piece.is_empty() {
        bail!("nothing is written");
    }
    Ok(sink.write(piece))
}

fn written<R: Files + AllocGlobal>(rt: &R, text: &str) -> anyhow::Result<String> {
    let (name, text) = text.split_once(' ').context("a name and a text")?;
    let mut sink = StreamSink::new(fs::create(rt, name)?);
    let write = write_to(&mut sink, text.as_bytes())?;
    Ok(format!(in rt.alloc(); "{write:?}")?)
}

fn removed<R: Files + AllocGlobal>(rt: &R, name: &str) -> anyhow::Result<String> {
    fs::remove_file(rt, name)?;
    Ok(String::from_str(rt.alloc(), "removed")?)
}

fn script_told<R: Files + AllocGlobal>(rt: &R, text: &str) -> anyhow::Result<String> {
    let (script, rest) = text.split_once(": ").context("a name and reads")?;
    let mut told = String::new(rt.alloc());
    let mut into = Vec::new(rt.alloc());
    let mut shelf = FileShelf::new(rt, script);
    add_reads(rt.alloc(), &mut shelf, rest, &mut into, &mut told)?;
    Ok(told)
}

fn history_told<R: Files + AllocGlobal>(rt: &R, text: &str) -> anyhow::Result<String> {
    let (names, rest) = text.split_once(": ").context("names and reads")?;
    let (script, history) = names.split_once(' ').context("two names")?;
    let mut told = String::new(rt.alloc());
    let mut into = Vec::new(rt.alloc());
    let mut shelf = FileShelf::with_history(rt, script, history);
    add_reads(rt.alloc(), &mut shelf, rest, &mut into, &mut told)?;
    Ok(told)
}
