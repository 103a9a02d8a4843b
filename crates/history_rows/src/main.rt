//! Reads histories and prints them again, as files of rows say. Prints each row with another outcome, and for each file
//! how many rows agree.
//!
//! A line of the standard input names what is done, `events`, `texts` or `changes`, and a file of rows. In a file a
//! line that is empty or starts with `#` is skipped; its head says what the others are.
#![tactic(auto)]

mod changes;
mod events;
mod names;
mod reading;
mod row;
mod texts;

use anyhow::{Context, bail};
use changes::try_changes;
use events::try_events;
use history_text::Names;
use names::{one_of_each, one_signal, two_tasks};
use std::fs;
use texts::try_texts;

fn main(rt: HostRuntime) -> anyhow::Result<()> {
    let tasks = two_tasks(rt.alloc())?;
    let signals = one_signal(rt.alloc())?;
    let pers = one_of_each(rt.alloc())?;
    let names = Names {
        tasks: tasks.as_slice(),
        signals: signals.as_slice(),
        pers: pers.as_slice(),
    };
    for line in rt.lines(rt.alloc()) {
        let line = line?;
        let (what, file) = line.as_str().split_once(' ').context("two words a line")?;
        let text = fs::read_to_string(&rt, file)?;
        println!(rt; "{file}")?;
        match what {
            "events" => try_events(&rt, &names, text.as_str())?,
            "texts" => try_texts(&rt, &names, text.as_str())?,
            "changes" => try_changes(&rt, &names, text.as_str())?,
            _ => bail!("{what} is not known"),
        }
    }
    Ok(())
}
