//! Checks small cells and scripts, each a row of text. Prints each row for which `check` prints something else than the
//! row says, and for each group how many rows agree.
//!
//! A line of the standard input names a file of rows. In it
//!
//! - a line that is empty or starts with `#` is skipped;
//! - a line `frame NAME: TITLE` starts a group, whose rows use the frame in the file `frames/NAME.txt`;
//! - any other line starts a row: what `check` prints, and then texts, each after a `|`;
//! - a line that starts with `|` adds texts to the row, and one that starts with `:` one more line to its last text.
//!
//! What `check` prints is `accepted`; a rule, at the byte after the one `^` of the texts, which is left out when the
//! cell is checked; or a key of the script and a rule. The key of a whole script is `-`.
//!
//! In a frame's file a line `file NAME` starts a file of the cell, the script `cell.toml` or a module: `a.mod`, `b.mod`
//! or `c.mod`; `file printed` starts what `round` prints of the cell. The lines before the first one say what the frame
//! is. Each line `...` stands for the next text of a row, or for an empty line if none is left, `....` for the same
//! without its line feed, and `times N TEXT` for a text that comes N times.
//!
//! In `calls.txt` a row's first text has calls, with `; ` between them: command words, as `piece.rt` spells them. Each of
//! them tells what the row says: the status, how many events the report has, and what is printed, with `\n` for a line
//! feed, or `printed` for the lines that the frame gives. After `migrated` the script is what `migrate` prints of it.
//!
//! In `damage.txt` a frame is a whole cell, which a row does something with: its texts are the command words, the
//! damage, and what fails; the last two may be empty or missing.
//!
//! - The damage is `FILE FIRST PAST SKIPPED TIMES TEXT`: at each byte of the file from FIRST to the one before PAST, the
//!   bytes before it stay, then the text comes so many times, and then the file goes on so many bytes later. A `/` of
//!   the text is a line feed, and `~` is the byte FF.
//! - `read N`, `out N` and `err N`: the read, and the write to the first and to the second sink with this number, from
//!   0, fails. `room N`: the first sink takes no more than so many bytes.
//!
//! Such a row says how it ends, or with ` or ` between them several ways: the status; how many bytes are printed, which
//! start the lines that the frame gives; how many events the report has; whether the place of a refused module is before
//! the damage, at it or past it; and the line on the second sink. A `*` stands for any text. Of `audit` and `state` it
//! says the status, and what is printed.
#![tactic(auto)]

mod call;
mod cell;
mod piece;
mod place;
mod row;
mod told;
mod trial;

use anyhow::{Context, bail};
use call::call_told;
use cell::Cell;
use row::{Group, read_groups};
use std::fs;
use told::told_of;
use trial::{Counts, Trial};

fn main(rt: HostRuntime) -> anyhow::Result<()> {
    for name in rt.lines(rt.alloc()) {
        let name = name?;
        let text = fs::read_to_string(&rt, name.as_str())?;
        println!(rt; "{}", name.as_str())?;
        for group in &read_groups(rt.alloc(), text.as_str())? {
            let path = format!(in rt.alloc(); "frames/{}.txt", group.frame)?;
            let frame = fs::read_to_string(&rt, path.as_str())?;
            if name.as_str() == "damage.txt" {
                try_group(&rt, group, frame.as_str())?;
            } else if name.as_str() == "calls.txt" {
                call_group(&rt, group, frame.as_str())?;
            } else {
                check_group(&rt, group, frame.as_str())?;
            }
        }
    }
    Ok(())
}

/// Checks the rows of a group.
fn check_group(rt: &HostRuntime, group: &Group<'_>, frame: &str) -> anyhow::Result<()> {
    let alloc = rt.alloc();
    let mut agreeing = 0u32;
    for row in &group.rows {
        let cell = Cell::new(alloc, frame, row.texts.as_slice()).context(format_args!(
            "the row of line {}",
            row.line
        ))?;
        let wanted = row.wanted(alloc, cell.mark())?;
        let got = told_of(alloc, &cell)?;
        if got.as_slice() == wanted.as_bytes() {
            agreeing = agreeing.wrapping_add(1);
        } else {
            println!(rt;
                "the row of line {} says {}, and {} is told",
                row.line,
                wanted.as_bytes().escape_ascii(),
                got.as_slice().escape_ascii()
            )?;
        }
    }
    let rows = group.rows.len();
    println!(rt; "{agreeing} of {rows}: {}", group.title)?;
    Ok(())
}

/// Makes the calls of the rows of a group.
fn call_group(rt: &HostRuntime, group: &Group<'_>, frame: &str) -> anyhow::Result<()> {
    let mut counts = Counts {
        tries: 0,
        agreeing: 0,
    };
    for row in &group.rows {
        let Some((calls, texts)) = row.texts.as_slice().split_first() else {
            bail!("the row of line {} has no calls", row.line);
        };
        let cell = Cell::new(rt.alloc(), frame, texts).context(format_args!(
            "the row of line {}",
            row.line
        ))?;
        for call in calls.as_str().split("; ") {
            counts.tries = counts.tries.wrapping_add(1);
            let told = call_told(rt.alloc(), &cell, call)?;
            if told.as_str() == row.told {
                counts.agreeing = counts.agreeing.wrapping_add(1);
            } else {
                println!(rt;
                    "the row of line {} says {}, and {call} tells {}",
                    row.line,
                    row.told,
                    told.as_str()
                )?;
            }
        }
    }
    println!(rt; "{} of {}: {}", counts.agreeing, counts.tries, group.title)?;
    Ok(())
}

/// Does what the rows of a group say with the cell of its frame.
fn try_group(rt: &HostRuntime, group: &Group<'_>, frame: &str) -> anyhow::Result<()> {
    let cell = Cell::new(rt.alloc(), frame, &[])?;
    let mut counts = Counts {
        tries: 0,
        agreeing: 0,
    };
    for row in &group.rows {
        let trial = Trial::read(row.texts.as_slice());
        trial.run(rt, row, &cell, &mut counts)?;
    }
    println!(rt; "{} of {}: {}", counts.agreeing, counts.tries, group.title)?;
    Ok(())
}
