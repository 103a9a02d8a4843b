//! What reading a text gives, and the text of what was read.

ghost use Rattle.history_text.specs.HistoryText.{AreNamed};

use anyhow::bail;
use arrayvec::ArrayString;
use history_text::{HistoryFault, Names, line_of, read_history, write_fate};
use rapid_model::{Event, Fate};
use std::alloc::{AllocError, Global};

/// The most bytes that a text has.
const LONGEST: usize = 1_000_000;

/// Events, and the fates of the first tasks.
#[derive(Drop, PartialEq)]
pub struct History {
    pub events: Vec<Event>,
    pub fates: Vec<Fate>,
}

/// What a text is: a history, or none from a line on.
#[derive(Drop)]
pub enum Told {
    History(History),
    Line(u32),
}

/// The result of reading a text.
pub fn told_of(alloc: Global, names: &Names, text: &[u8]) -> anyhow::Result<Told>
    requires { AreNamed names.now.tasks.now }
{
    if text.len() > LONGEST {
        bail!("a text of {} bytes", text.len());
    }
    match read_history(alloc, names, text) {
        Ok((events, fates)) => Ok(Told::History(History { events, fates })),
        Err(HistoryFault::Line(line)) => Ok(Told::Line(line)),
        Err(HistoryFault::Memory) => bail!("out of memory"),
    }
}

impl History {
    /// The lines of the events, and then those of the fates.
    pub fn lines(&self, alloc: Global, names: &Names) -> Result<Vec<String>, AllocError> {
        let mut lines = Vec::new(alloc);
        for event in &self.events {
            let mut line = ArrayString::new();
            line_of(names, event, true, &mut line);
            lines.push(String::from_str(alloc, line.as_str())?)?;
        }
        for (row, fate) in names.tasks.iter().zip(&self.fates) {
            let mut line = ArrayString::new();
            write_fate(&row.name, fate, &mut line);
            lines.push(String::from_str(alloc, line.as_str())?)?;
        }
        Ok(lines)
    }

    /// The text of its lines.
    pub fn printed(&self, alloc: Global, names: &Names) -> Result<Vec<u8>, AllocError> {
        let mut text = Vec::new(alloc);
        for line in &self.lines(alloc, names)? {
            text.extend_from_slice(line.as_bytes())?;
        }
        Ok(text)
    }

    /// What each line says: the number of the actor, the request and the answer; or the fate of a task.
    pub fn said(&self, alloc: Global) -> Result<Vec<String>, AllocError> {
        let mut said = Vec::new(alloc);
        for event in &self.events {
            said.push(format!(in alloc;
                "{} {:?} > {:?}",
                event.actor, event.request, event.answer
            )?)?;
        }
        for fate in &self.fates {
            said.push(format!(in alloc; "{fate:?}")?)?;
        }
        Ok(said)
    }
}
