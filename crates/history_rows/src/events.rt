//! Lines, and what they say.

ghost use Rattle.history_text.specs.HistoryText.{AreNamed};

use crate::reading::{History, Told, told_of};
use anyhow::Context;
use history_text::Names;
use std::alloc::Global;

/// A line of a history, and what it says.
#[derive(Drop)]
struct Row<'a> {
    line: &'a str,
    said: String,
}

/// Reads the lines of all rows as one history, and prints it again.
pub fn try_events(rt: &HostRuntime, names: &Names, file: &str) -> anyhow::Result<()>
    requires { AreNamed names.now.tasks.now }
{
    let rows = read_rows(rt.alloc(), file)?;
    let mut text = String::new(rt.alloc());
    for row in &rows {
        text.push_str(row.line)?;
        text.push('\n')?;
    }
    match told_of(rt.alloc(), names, text.as_bytes())? {
        Told::History(history) => compare(rt, names, rows.as_slice(), &history),
        Told::Line(line) => {
            println!(rt; "line {line} is told")?;
            Ok(())
        }
    }
}

/// Compares what was read, and its lines, with the rows.
fn compare(
    rt: &HostRuntime,
    names: &Names,
    rows: &[Row<'_>],
    history: &History,
) -> anyhow::Result<()> {
    let said = history.said(rt.alloc())?;
    let lines = history.lines(rt.alloc(), names)?;
    let mut agreeing = 0u32;
    for (row, (said, line)) in rows.iter().zip(said.iter().zip(&lines)) {
        if said.as_str() == row.said.as_str()
            && line.as_str().strip_suffix('\n') == Some(row.line)
        {
            agreeing = agreeing.wrapping_add(1);
        } else {
            println!(rt; "{} is read as {said}, and printed as {line}", row.line)?;
        }
    }
    println!(rt; "{agreeing} of {} lines", rows.len())?;
    Ok(())
}

/// The rows of a file: a line of a history, and below it what it says, continued in the lines that start with a space.
fn read_rows(alloc: Global, file: &str) -> anyhow::Result<Vec<Row<'_>>> {
    let mut rows = Vec::new(alloc);
    for line in file.lines() {
        if line.is_empty() || line.starts_with('#') {
            continue;
        }
        if line.starts_with("H ") || line.starts_with("E ") {
            rows.push(Row {
                line,
                said: String::new(alloc),
            })?;
            continue;
        }
        let row: &mut Row<'_> = rows.last_mut().context("a line before what it says")?;
        if !row.said.is_empty() {
            row.said.push(' ')?;
        }
        row.said.push_str(line.trim_start())?;
    }
    Ok(rows)
}
