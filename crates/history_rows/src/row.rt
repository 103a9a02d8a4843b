//! Rows of texts.

use anyhow::Context;
use std::alloc::Global;

/// A text, and what is expected of it.
#[derive(Drop)]
pub struct Row<'a> {
    /// The line of the file that it starts in, from 1.
    pub line: usize,
    pub told: &'a str,
    pub text: String,
}

/// The rows of a file.
pub fn read_rows(alloc: Global, file: &str) -> anyhow::Result<Vec<Row<'_>>> {
    let mut rows = Vec::new(alloc);
    for (above, line) in file.lines().enumerate() {
        if line.is_empty() || line.starts_with('#') {
            continue;
        }
        if let Some(rest) = line.strip_prefix('|') {
            let row: &mut Row<'_> = rows.last_mut().context("a row before its text")?;
            row.text.push_str(rest)?;
            row.text.push('\n')?;
        } else if let Some(rest) = line.strip_prefix(':') {
            let row: &mut Row<'_> = rows.last_mut().context("a row before its text")?;
            row.text.push_str(rest)?;
        } else {
            rows.push(Row {
                line: above.saturating_add(1),
                told: line,
                text: String::new(alloc),
            })?;
        }
    }
    Ok(rows)
}
