//! Reads of any shelf.

ghost use Rattle.std.specs.Prelude.{◌≡◌, IfSome, option_map};
ghost use Rattle.outside.specs.Reads.{Follows};
ghost use Rattle.outside.specs.Told.{after_reads, found};

use anyhow::Context;
use outside::{Shelf, ShelfFault};
use std::alloc::Global;

/// Two reads from any shelf: if it reports its files, the second gets what they hold one read later.
pub fn second_read<S: Shelf>(
    shelf: &mut S,
    alloc: Global,
    first: &str,
    second: &str,
    limit: usize,
    into: &mut Vec<u8>,
) -> Result<(), ShelfFault>
    ensures told { S.told shelf.new ≡ option_map (after_reads 2) (S.told shelf.old) }
    ensures second { IfSome (S.told shelf.old) (λ t. Follows (found (after_reads 1 t) second.now) limit into.old.items into.new.items result) }
{
    let mut scratch = Vec::new(alloc);
    let _ = shelf.read(alloc, first, limit, &mut scratch);
    shelf.read(alloc, second, limit, into)
}

/// Adds what comes of reads, each a name and a limit, with `; ` between them.
pub fn add_reads<S: Shelf>(
    alloc: Global,
    shelf: &mut S,
    reads: &str,
    into: &mut Vec<u8>,
    told: &mut String,
) -> anyhow::Result<()> {
    for (number, read) in reads.split("; ").enumerate() {
        let (name, limit) = read.split_once(' ').context("a name and a limit")?;
        let limit = limit.parse::<usize>().ok().context("a limit")?;
        let result = shelf.read(alloc, name, limit, into);
        if number > 0 {
            told.push_str("; ")?;
        }
        let line = format!(in alloc; "{result:?} {}", into.as_slice().escape_ascii())?;
        told.push_str(line.as_str())?;
    }
    Ok(())
}
