ghost use Rattle.std.specs.Prelude.{◌≡◌, ℕ, ◌<◌, ◌≤◌, List, ◌++◌, length, take, map, Option, Some, option_map, string_bytes, bytes_eq, IfSome, OnOk, OnErr, IfErr, IsTrue};
ghost use Rattle.std.specs.Map.{lookup};
ghost use Rattle.outside.specs.Count.{Rose};
ghost use Rattle.outside.specs.Told.{Told, found, after_reads};
ghost use Rattle.outside.specs.Reads.{Gains, Follows, faults_after_read};
ghost use Rattle.outside.specs.MemoryShelf.{files_of, names_differ};

use super::listed::is_listed;
use super::{Shelf, ShelfFault};
use std::alloc::Global;
use std::marker::Model;

/// Files in memory, with a list of the reads that fail. Contracts see it as its reported state and its number of
/// faults.
#[derive(Drop)]
pub struct MemoryShelf {
    files: Vec<(String, Vec<u8>)>,
    failing: Vec<u32>,
    calls: u64,
    faults: u64,
}

impl Model for MemoryShelf {
    ghost use Rattle.outside.specs.MemoryShelf.{MemoryShelfState, files_of};

    ghost Value = { MemoryShelfState };

    ghost view = { λ shelf. record { told = record { files = files_of shelf.files.items; calls = shelf.calls; failing = shelf.failing.items }; faults = shelf.faults } };
}

impl MemoryShelf {
    /// A shelf of these files, by name. No two names are equal. `failing` lists the reads that fail, numbered from 0.
    pub fn new(files: Vec<(String, Vec<u8>)>, failing: Vec<u32>) -> MemoryShelf
        requires names_differ { IsTrue (names_differ (files_of files.items)) }
        ensures files { result.told.files ≡ files_of files.items }
        ensures no_reads_yet { result.told.calls ≡ 0 }
        ensures failing { result.told.failing ≡ failing.items }
        ensures no_faults_yet { result.faults ≡ 0 }
    {
        MemoryShelf {
            files,
            failing,
            calls: 0,
            faults: 0,
        }
    }
}

impl Shelf for MemoryShelf {
    ghost told = { λ shelf. Some shelf.told };

    ghost faults = { λ shelf. shelf.faults };

    /// A read of a missing name and a listed read fail, and increment the number of faults.
    fn read(
        &mut self,
        _alloc: Global,
        name: &str,
        limit: usize,
        into: &mut Vec<u8>,
    ) -> Result<(), ShelfFault>
        ensures faults_never_fall { self.old.faults ≤ self.new.faults }
        ensures failed_only_where_faults_rose { result ≡ Err ShelfFault.Failed → Rose self.old.faults self.new.faults }
        ensures into_gains { Gains limit into.old.items into.new.items result }
        ensures told_after { self.new.told ≡ after_reads 1 self.old.told }
        ensures follows_told { Follows (found self.old.told name.now) limit into.old.items into.new.items result }
        ensures failures_are_counted { self.new.faults ≡ faults_after_read self.old.faults result }
    {
        let fails = is_listed(&self.failing, self.calls);
        self.calls = self.calls.saturating_add(1);
        let held = if fails {
            None
        } else {
            bytes_at(&self.files, name)
        };
        let Some(bytes) = held else {
            self.faults = self.faults.saturating_add(1);
            return Err(ShelfFault::Failed);
        };
        append_within(bytes, limit, into)
    }
}

// The contents of the file with this name.
fn bytes_at<'a>(files: &'a [(String, Vec<u8>)], name: &str) -> Option<&'a [u8]>
    ensures { option_map (λ bytes. bytes.now) result ≡ lookup (bytes_eq name.now) (files_of files.now) }
{
    for (key, bytes) in files {
        if name == key.as_str() {
            return Some(bytes.as_slice());
        }
    }
    None
}

// Appends the bytes, or only the first ones if there are more than the limit.
fn append_within(bytes: &[u8], limit: usize, into: &mut Vec<u8>) -> Result<(), ShelfFault>
    ensures { Follows (Some bytes.now) limit into.old.items into.new.items result }
{
    if bytes.len() <= limit {
        append(bytes, into)
    } else {
        append(&bytes[..limit + 1], into)?;
        Err(ShelfFault::TooLong)
    }
}

// Appends the bytes.
pub(crate) fn append(bytes: &[u8], into: &mut Vec<u8>) -> Result<(), ShelfFault>
    ensures all { OnOk result (into.new.items ≡ into.old.items ++ bytes.now) }
    ensures none { OnErr result (into.new.items ≡ into.old.items) }
    ensures only_memory { IfErr result (λ fault. fault ≡ ShelfFault.Memory) }
{
    into.extend_from_slice(bytes)
        .map_err(|_| ShelfFault::Memory)
}
