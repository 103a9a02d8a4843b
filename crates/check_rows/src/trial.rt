//! Trials: cells with a damaged file, and devices that fail.

use super::cell::Cell;
use super::piece::piece_of;
use super::place::side_of;
use super::row::Row;
use super::told::{Faults, NEVER, lines_of, outcome_of, shelf_of};
use std::alloc::{AllocError, Global};

/// What a row tries; the head of main.rt says how a row spells it.
#[derive(Clone, Copy)]
pub struct Trial<'a> {
    words: &'a str,
    file: &'a str,
    first: u32,
    past: u32,
    skipped: u32,
    times: u32,
    text: &'a str,
    device: &'a str,
}

/// How many tries there were, and how many of them told what is due.
#[derive(Clone, Copy)]
pub struct Counts {
    pub tries: u32,
    pub agreeing: u32,
}

impl<'a> Trial<'a> {
    /// What these texts of a row spell.
    pub fn read(texts: &'a [String]) -> Trial<'a> {
        let mut damage = text_at(texts, 1).split(' ');
        Trial {
            words: text_at(texts, 0),
            file: damage.next().unwrap_or(""),
            first: number_of(damage.next(), 0),
            past: number_of(damage.next(), 1),
            skipped: number_of(damage.next(), 0),
            times: number_of(damage.next(), 0),
            text: damage.next().unwrap_or(""),
            device: text_at(texts, 2),
        }
    }

    /// Tries it at each byte. Prints each try that tells something else than is due.
    pub fn run(
        &self,
        rt: &HostRuntime,
        row: &Row<'_>,
        cell: &Cell,
        counts: &mut Counts,
    ) -> anyhow::Result<()> {
        for at in self.first..self.past {
            let told = self.told(rt.alloc(), cell, at as usize)?;
            counts.tries = counts.tries.wrapping_add(1);
            if is_due(told.as_slice().trim_ascii_end(), row.told) {
                counts.agreeing = counts.agreeing.wrapping_add(1);
            } else {
                println!(rt;
                    "the row of line {} says {}, and at {at} {} is told",
                    row.line,
                    row.told,
                    told.as_slice().escape_ascii()
                )?;
            }
        }
        Ok(())
    }

    /// What is told if the file is damaged at a byte.
    fn told(&self, alloc: Global, cell: &Cell, at: usize) -> anyhow::Result<Vec<u8>> {
        let whole = cell.text(self.file).as_bytes();
        let damaged = self.damaged(alloc, whole, at)?;
        let faults = self.faults();
        let shelf = shelf_of(alloc, cell, self.file, damaged.as_slice(), &faults)?;
        let outcome = outcome_of(alloc, self.words, shelf, &faults)?;
        if self.words.starts_with("audit ") || self.words.starts_with("state ") {
            let lines = lines_of(alloc, &outcome)?;
            let told = format!(in alloc; "{} {}", outcome.report.status, lines.as_str())?;
            return Ok(told.into_bytes());
        }
        let mut told = format!(in alloc;
            "{}, {} bytes, {} events{} ",
            outcome.report.status,
            printed_of(outcome.out.bytes(), cell.printed.as_bytes()),
            outcome.report.history.len(),
            side_of(&outcome.report, whole, at)
        )?
        .into_bytes();
        told.extend_from_slice(outcome.err.bytes())?;
        Ok(told)
    }

    /// The text of the file, damaged at a byte.
    fn damaged(&self, alloc: Global, whole: &[u8], at: usize) -> Result<Vec<u8>, AllocError> {
        let piece = piece_of(alloc, self.text)?;
        let mut text = Vec::from_slice(alloc, whole.get(..at).unwrap_or(whole))?;
        for _ in 0..self.times {
            text.extend_from_slice(piece.as_slice())?;
        }
        let rest = at.saturating_add(self.skipped as usize);
        text.extend_from_slice(whole.get(rest..).unwrap_or(&[]))?;
        Ok(text)
    }

    /// What fails.
    fn faults(&self) -> Faults {
        Faults {
            read: number_of(self.device.strip_prefix("read "), NEVER),
            out: number_of(self.device.strip_prefix("out "), NEVER),
            err: number_of(self.device.strip_prefix("err "), NEVER),
            room: number_of(self.device.strip_prefix("room "), NEVER),
        }
    }
}

/// The text with this number, from 0, or an empty one.
fn text_at(texts: &[String], number: usize) -> &str {
    match texts.get(number) {
        Some(text) => text.as_str(),
        None => "",
    }
}

/// The number that a word spells, or the other one.
fn number_of(word: Option<&str>, other: u32) -> u32 {
    match word {
        Some(word) => word.parse::<u32>().ok().unwrap_or(other),
        None => other,
    }
}

/// How many bytes were printed, if they start these lines or are the line of an accepted cell.
fn printed_of(out: &[u8], lines: &[u8]) -> usize {
    if lines.starts_with(out) || out == b"accepted\n".as_slice() {
        out.len()
    } else {
        usize::MAX
    }
}

/// Whether a text is one of those between ` or `.
fn is_due(text: &[u8], due: &str) -> bool {
    for one in due.split(" or ") {
        if fits(text, one) {
            return true;
        }
    }
    false
}

/// Whether a text is this one, in which `*` stands for any text.
fn fits(text: &[u8], pattern: &str) -> bool {
    match pattern.split_once('*') {
        Some((front, back)) => {
            text.starts_with(front.as_bytes()) && text.ends_with(back.as_bytes())
        }
        None => text == pattern.as_bytes(),
    }
}
