//! What a call tells.

use super::cell::{Cell, unmarked};
use super::piece::words_of;
use anyhow::{Context, bail};
use controller::{Report, is_run, quiet};
use outside::{MemoryShelf, MemorySink};
use std::alloc::{AllocError, Global};

/// The number of a call that is never reached, and room for all that is printed.
pub const NEVER: u32 = 4_096;

/// What fails: the read, the write to the first sink and the write to the second one with these numbers, and the first
/// sink after so many bytes.
#[derive(Clone, Copy)]
pub struct Faults {
    pub read: u32,
    pub out: u32,
    pub err: u32,
    pub room: u32,
}

impl Faults {
    /// Nothing fails.
    pub fn none() -> Faults {
        Faults {
            read: NEVER,
            out: NEVER,
            err: NEVER,
            room: NEVER,
        }
    }
}

/// The report of a call, and what it printed.
#[derive(Drop)]
pub struct Outcome {
    pub report: Report,
    pub out: MemorySink,
    pub err: MemorySink,
}

/// The status of the check of a cell, and what it prints.
pub fn told_of(alloc: Global, cell: &Cell) -> anyhow::Result<Vec<u8>> {
    let faults = Faults::none();
    let shelf = shelf_of(alloc, cell, "", b"", &faults)?;
    let outcome = outcome_of(alloc, "check cell.toml", shelf, &faults)?;
    let mut told = format!(in alloc; "{} ", outcome.report.status)?.into_bytes();
    told.extend_from_slice(outcome.out.bytes())?;
    told.extend_from_slice(outcome.err.bytes())?;
    Ok(told)
}

/// Does what the words say with the files on a shelf.
pub fn outcome_of(
    alloc: Global,
    words: &str,
    mut shelf: MemoryShelf,
    faults: &Faults,
) -> anyhow::Result<Outcome> {
    let list = words_of(alloc, words)?;
    if is_run(list.as_slice()) {
        bail!("these words run on threads");
    }
    let mut out = sink_of(alloc, faults.room, faults.out)?;
    let mut err = sink_of(alloc, NEVER, faults.err)?;
    let report = quiet(alloc, list.as_slice(), &mut shelf, &mut out, &mut err);
    Ok(Outcome { report, out, err })
}

/// What a call printed on both sinks, without blanks at the end, and with `\n` for a line feed.
pub fn lines_of(alloc: Global, outcome: &Outcome) -> Result<String, AllocError> {
    let mut lines = Vec::from_slice(alloc, outcome.out.bytes())?;
    lines.extend_from_slice(outcome.err.bytes())?;
    format!(in alloc; "{}", lines.as_slice().trim_ascii_end().escape_ascii())
}

/// A sink that takes so many bytes, and fails at the write with this number.
fn sink_of(alloc: Global, room: u32, number: u32) -> anyhow::Result<MemorySink> {
    let mut failing = Vec::new(alloc);
    failing.push(number)?;
    MemorySink::new(alloc, room as usize, failing)
        .ok()
        .context("memory")
}

/// The files of a cell, without their mark. The one with this name has another text.
pub fn shelf_of(
    alloc: Global,
    cell: &Cell,
    name: &str,
    text: &[u8],
    faults: &Faults,
) -> Result<MemoryShelf, AllocError> {
    let mut files = Vec::new(alloc);
    files.push((
        String::from_str(alloc, "cell.toml")?,
        bytes_of(alloc, cell, "cell.toml", name, text)?,
    ))?;
    files.push((
        String::from_str(alloc, "a.mod")?,
        bytes_of(alloc, cell, "a.mod", name, text)?,
    ))?;
    files.push((
        String::from_str(alloc, "b.mod")?,
        bytes_of(alloc, cell, "b.mod", name, text)?,
    ))?;
    files.push((
        String::from_str(alloc, "c.mod")?,
        bytes_of(alloc, cell, "c.mod", name, text)?,
    ))?;
    let mut failing = Vec::new(alloc);
    failing.push(faults.read)?;
    Ok(MemoryShelf::new(files, failing))
}

/// The bytes of a file without its mark, or the other text if it has this name.
fn bytes_of(
    alloc: Global,
    cell: &Cell,
    file: &str,
    name: &str,
    text: &[u8],
) -> Result<Vec<u8>, AllocError> {
    if file == name {
        Vec::from_slice(alloc, text)
    } else {
        unmarked(alloc, cell.text(file))
    }
}
