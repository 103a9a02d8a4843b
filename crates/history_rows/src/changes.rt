//! Histories with one byte changed: the line of the byte is reported, or another history is read, which prints as the
//! changed text.

ghost use Rattle.history_text.specs.HistoryText.{AreNamed};

use crate::reading::{History, Told, told_of};
use crate::row::{Row, read_rows};
use anyhow::bail;
use history_text::Names;
use std::alloc::Global;

/// A byte of a text.
#[derive(Clone, Copy)]
struct Spot<'a> {
    before: &'a [u8],
    byte: u8,
    after: &'a [u8],
    /// The line of the byte, from 1.
    line: u32,
}

/// The outcome of a change.
#[derive(Clone, Copy)]
enum Outcome {
    /// The line of the byte is reported.
    Fault,
    /// Another history is read, and printed as the changed text.
    Other,
    /// Anything else.
    Wrong,
}

/// Changes each byte of the text of each row.
pub fn try_changes(rt: &HostRuntime, names: &Names, file: &str) -> anyhow::Result<()>
    requires { AreNamed names.now.tasks.now }
{
    let rows = read_rows(rt.alloc(), file)?;
    for row in &rows {
        let others = others_of(rt, names, row)?;
        let told = format!(in rt.alloc(); "{others} other histories")?;
        if told.as_str() == row.told {
            println!(rt; "{told}")?;
        } else {
            println!(rt;
                "the row of line {} says {}, and {told} are read",
                row.line, row.told
            )?;
        }
    }
    Ok(())
}

/// How many other histories come of a row's text, if one byte is replaced or dropped.
fn others_of(rt: &HostRuntime, names: &Names, row: &Row<'_>) -> anyhow::Result<u32>
    requires { AreNamed names.now.tasks.now }
{
    let text = row.text.as_bytes();
    let Told::History(history) = told_of(rt.alloc(), names, text)? else {
        bail!("the text of line {} is no history", row.line);
    };
    let mut others = 0u32;
    let mut line = 1u32;
    for (place, byte) in text.iter().enumerate() {
        let spot = Spot {
            before: text.get(..place).unwrap_or(&[]),
            byte: *byte,
            after: text.get(place.saturating_add(1)..).unwrap_or(&[]),
            line,
        };
        others = others.wrapping_add(others_at(rt, names, &history, &spot)?);
        if *byte == b'\n' {
            line = line.wrapping_add(1);
        }
    }
    Ok(others)
}

/// How many come of changes of one byte.
fn others_at(
    rt: &HostRuntime,
    names: &Names,
    history: &History,
    spot: &Spot<'_>,
) -> anyhow::Result<u32>
    requires { AreNamed names.now.tasks.now }
{
    let mut others = 0u32;
    for new in 0..=u8::MAX {
        let change = if new == spot.byte { None } else { Some(new) };
        match outcome_of(rt.alloc(), names, history, spot, change)? {
            Outcome::Fault => {}
            Outcome::Other => others = others.wrapping_add(1),
            Outcome::Wrong => println!(rt; "line {}: {} as {change:?}", spot.line, spot.byte)?,
        }
    }
    Ok(others)
}

/// The outcome if the byte is replaced or dropped.
fn outcome_of(
    alloc: Global,
    names: &Names,
    history: &History,
    spot: &Spot<'_>,
    change: Option<u8>,
) -> anyhow::Result<Outcome>
    requires { AreNamed names.now.tasks.now }
{
    let mut text = Vec::from_slice(alloc, spot.before)?;
    if let Some(byte) = change {
        text.push(byte)?;
    }
    text.extend_from_slice(spot.after)?;
    match told_of(alloc, names, text.as_slice())? {
        Told::Line(line) if line == spot.line => Ok(Outcome::Fault),
        Told::Line(_) => Ok(Outcome::Wrong),
        Told::History(other) if other == *history => Ok(Outcome::Wrong),
        Told::History(other) if other.printed(alloc, names)? == text => Ok(Outcome::Other),
        Told::History(_) => Ok(Outcome::Wrong),
    }
}
