//! Calls, with all that they tell.

use super::cell::Cell;
use super::told::{Faults, Outcome, lines_of, outcome_of, shelf_of};
use std::alloc::Global;

/// What a call with a cell tells: its status, how many events its report has, and what it prints, with `\n` for a line
/// feed, or `printed` for the lines that the frame gives. A call after `migrated ` has in place of the script what
/// `migrate` prints of it.
pub fn call_told(alloc: Global, cell: &Cell, call: &str) -> anyhow::Result<String> {
    let outcome = match call.strip_prefix("migrated ") {
        Some(words) => migrated(alloc, cell, words)?,
        None => called(alloc, cell, "", b"", call)?,
    };
    let (status, events) = (outcome.report.status, outcome.report.history.len());
    if is_printed(cell, &outcome) {
        return Ok(format!(in alloc; "{status} {events} printed")?);
    }
    let lines = lines_of(alloc, &outcome)?;
    Ok(format!(in alloc; "{status} {events} {}", lines.as_str())?)
}

/// Whether a call printed the lines that the frame gives, and nothing on the second sink.
fn is_printed(cell: &Cell, outcome: &Outcome) -> bool {
    !cell.printed.is_empty()
        && outcome.out.bytes() == cell.printed.as_bytes()
        && outcome.err.bytes().is_empty()
}

/// The call of these words, with what `migrate` prints of the script in its place.
fn migrated(alloc: Global, cell: &Cell, words: &str) -> anyhow::Result<Outcome> {
    let script = called(alloc, cell, "", b"", "migrate cell.toml")?;
    called(alloc, cell, "cell.toml", script.out.bytes(), words)
}

/// The call of these words, with another text in place of the file with this name.
fn called(
    alloc: Global,
    cell: &Cell,
    name: &str,
    text: &[u8],
    words: &str,
) -> anyhow::Result<Outcome> {
    let faults = Faults::none();
    let shelf = shelf_of(alloc, cell, name, text, &faults)?;
    outcome_of(alloc, words, shelf, &faults)
}
