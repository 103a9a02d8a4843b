//! Cells of rows.

use anyhow::{Context, bail};
use std::alloc::{AllocError, Global};

/// The place after a `^`: the module, and the line and the column from 1.
#[derive(Clone, Copy)]
pub struct Mark {
    pub module: &'static str,
    pub line: usize,
    pub column: usize,
}

/// A file of a cell, what `round` prints of the cell, or neither.
#[derive(Clone, Copy)]
enum File {
    None,
    Script,
    A,
    B,
    C,
    Printed,
}

impl File {
    fn named(name: &str) -> anyhow::Result<File> {
        Ok(match name {
            "cell.toml" => File::Script,
            "a.mod" => File::A,
            "b.mod" => File::B,
            "c.mod" => File::C,
            "printed" => File::Printed,
            _ => bail!("{name} is no file of a cell"),
        })
    }
}

/// The texts of a cell's files, with the mark. The text of a module that the script does not name is empty.
#[derive(Drop)]
pub struct Cell {
    pub script: String,
    pub a: String,
    pub b: String,
    pub c: String,
    /// What `round` prints, if the frame says so.
    pub printed: String,
}

impl Cell {
    /// The cell that a frame makes of a row's texts.
    pub fn new(alloc: Global, frame: &str, texts: &[String]) -> anyhow::Result<Cell> {
        let mut cell = Cell {
            script: String::new(alloc),
            a: String::new(alloc),
            b: String::new(alloc),
            c: String::new(alloc),
            printed: String::new(alloc),
        };
        let mut texts = texts.iter();
        let mut file = File::None;
        for line in frame.lines() {
            if let Some(name) = line.strip_prefix("file ") {
                file = File::named(name)?;
            } else if line == "..." || line == "...." {
                let text = texts.next().map(|text| text.as_str()).unwrap_or("");
                cell.add(file, text)?;
                if line == "..." {
                    cell.add(file, "\n")?;
                }
            } else if let Some(rest) = line.strip_prefix("times ") {
                cell.repeat(file, rest)?;
            } else {
                cell.add(file, line)?;
                cell.add(file, "\n")?;
            }
        }
        if texts.next().is_some() {
            bail!("more texts than the frame takes");
        }
        Ok(cell)
    }

    /// Adds a number's times the text after it.
    fn repeat(&mut self, file: File, line: &str) -> anyhow::Result<()> {
        let (count, text) = line.split_once(' ').context("a number and a text")?;
        let count = count.parse::<u32>().ok().context("a number")?;
        for _ in 0..count {
            self.add(file, text)?;
        }
        Ok(())
    }

    /// Adds a text to a file.
    fn add(&mut self, file: File, added: &str) -> Result<(), AllocError> {
        let text = match file {
            File::None => return Ok(()),
            File::Script => &mut self.script,
            File::A => &mut self.a,
            File::B => &mut self.b,
            File::C => &mut self.c,
            File::Printed => &mut self.printed,
        };
        text.push_str(added)
    }

    /// The text of a file, or an empty one if the cell has no such file.
    pub fn text(&self, name: &str) -> &str {
        match name {
            "cell.toml" => self.script.as_str(),
            "a.mod" => self.a.as_str(),
            "b.mod" => self.b.as_str(),
            "c.mod" => self.c.as_str(),
            _ => "",
        }
    }

    /// The mark, if there is one.
    pub fn mark(&self) -> Option<Mark> {
        for (module, text) in [("a.mod", &self.a), ("b.mod", &self.b), ("c.mod", &self.c)] {
            for (above, line) in text.as_str().lines().enumerate() {
                if let Some(before) = line.find('^') {
                    return Some(Mark {
                        module,
                        line: above.saturating_add(1),
                        column: before.saturating_add(1),
                    });
                }
            }
        }
        None
    }
}

/// The bytes of a text without its mark.
pub fn unmarked(alloc: Global, text: &str) -> Result<Vec<u8>, AllocError> {
    let mut bytes = Vec::new(alloc);
    for byte in text.bytes() {
        if byte != b'^' {
            bytes.push(byte)?;
        }
    }
    Ok(bytes)
}
