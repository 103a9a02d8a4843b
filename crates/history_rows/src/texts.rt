//! Texts, and the results of reading them.

ghost use Rattle.history_text.specs.HistoryText.{AreNamed};

use crate::reading::{Told, told_of};
use crate::row::read_rows;
use history_text::Names;

/// Reads the text of each row.
pub fn try_texts(rt: &HostRuntime, names: &Names, file: &str) -> anyhow::Result<()>
    requires { AreNamed names.now.tasks.now }
{
    let rows = read_rows(rt.alloc(), file)?;
    let mut agreeing = 0u32;
    for row in &rows {
        let told = match told_of(rt.alloc(), names, row.text.as_bytes())? {
            Told::History(history) => {
                format!(in rt.alloc(); "history {} {}", history.events.len(), history.fates.len())?
            }
            Told::Line(line) => format!(in rt.alloc(); "line {line}")?,
        };
        if told.as_str() == row.told {
            agreeing = agreeing.wrapping_add(1);
        } else {
            println!(rt;
                "the row of line {} says {}, and {told} is told",
                row.line, row.told
            )?;
        }
    }
    println!(rt; "{agreeing} of {} texts", rows.len())?;
    Ok(())
}
