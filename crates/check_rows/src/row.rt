//! Rows, and what is expected of them.

use super::cell::Mark;
use anyhow::Context;
use std::alloc::Global;

/// What `check` prints, and texts that a frame makes into a cell.
#[derive(Drop)]
pub struct Row<'a> {
    /// The line of the file that it starts in, from 1.
    pub line: usize,
    /// `accepted`, a rule, or a key and a rule.
    pub told: &'a str,
    pub texts: Vec<String>,
}

/// Rows of one frame.
#[derive(Drop)]
pub struct Group<'a> {
    pub frame: &'a str,
    pub title: &'a str,
    pub rows: Vec<Row<'a>>,
}

/// The groups of a file.
pub fn read_groups(alloc: Global, text: &str) -> anyhow::Result<Vec<Group<'_>>> {
    let mut groups = Vec::new(alloc);
    for (above, line) in text.lines().enumerate() {
        if line.is_empty() || line.starts_with('#') {
            continue;
        }
        if let Some(head) = line.strip_prefix("frame ") {
            let (frame, title) = head.split_once(": ").context("a frame and a title")?;
            groups.push(Group {
                frame,
                title,
                rows: Vec::new(alloc),
            })?;
        } else {
            let group: &mut Group<'_> = groups.last_mut().context("a frame before rows")?;
            group.read(alloc, above.saturating_add(1), line)?;
        }
    }
    Ok(groups)
}

impl<'a> Group<'a> {
    /// Reads a line of a row.
    fn read(&mut self, alloc: Global, number: usize, line: &'a str) -> anyhow::Result<()> {
        if let Some(rest) = line.strip_prefix(':') {
            let row = self.rows.last_mut().context("a row before its texts")?;
            row.go_on(rest)
        } else if let Some(rest) = line.strip_prefix('|') {
            let row = self.rows.last_mut().context("a row before its texts")?;
            row.add(alloc, rest)
        } else {
            let mut row = Row {
                line: number,
                told: line,
                texts: Vec::new(alloc),
            };
            if let Some((told, rest)) = line.split_once('|') {
                row.told = told.trim();
                row.add(alloc, rest)?;
            }
            self.rows.push(row)?;
            Ok(())
        }
    }
}

impl<'a> Row<'a> {
    /// Adds the texts between `|`.
    fn add(&mut self, alloc: Global, texts: &str) -> anyhow::Result<()> {
        for text in texts.split('|') {
            self.texts.push(String::from_str(alloc, text.trim())?)?;
        }
        Ok(())
    }

    /// Adds a line to the last text.
    fn go_on(&mut self, line: &str) -> anyhow::Result<()> {
        let text = self.texts.last_mut().context("a text before its lines")?;
        text.push('\n')?;
        text.push_str(line.strip_prefix(' ').unwrap_or(line))?;
        Ok(())
    }

    /// The status and the line that `check` ends with, if it prints what the row says.
    pub fn wanted(&self, alloc: Global, mark: Option<Mark>) -> anyhow::Result<String> {
        let told = self.told;
        let text = match mark {
            Some(
                Mark {
                    module,
                    line,
                    column,
                },
            ) => { format!(in alloc; "4 rapid_cell: module {module} {line}:{column} {told}\n")? }
            None if told == "accepted" => format!(in alloc; "0 accepted\n")?,
            None => format!(in alloc; "3 rapid_cell: script {told}\n")?,
        };
        Ok(text)
    }
}
