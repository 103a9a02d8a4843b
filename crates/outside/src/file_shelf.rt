ghost use Rattle.std.specs.Prelude.{◌≡◌, ℕ, ◌+◌, ◌≤◌, ◌<◌, List, ◌++◌, length, None, ◌≢◌, OnOk, IfOk, IsErr};
ghost use Rattle.std.specs.Io.{appended_bytes};
ghost use Rattle.std.specs.Io.KnownBytes.{Consumes, IsAtEnd};
ghost use Rattle.std.specs.Path.{path_buf_bytes};
ghost use Rattle.outside.specs.Count.{Rose};
ghost use Rattle.outside.specs.Paths.{path_from};
ghost use Rattle.outside.specs.Reads.{Gains, Extends, faults_after_read};

use super::memory_shelf::append;
use super::{Shelf, ShelfFault};
use std::alloc::{AllocError, Global};
use std::io::Read;
use std::marker::Model;
use std::path::{Path, PathBuf};
use std::rt::Files;
use std::{fs, io};

// The maximum number of bytes to ask for at once.
const CHUNK: usize = 4096;

/// The files of the runtime, by path. The names of the script and of a printed history are relative to the caller's
/// folder, every other name to the script's folder. This shelf reports nothing about its files. Contracts see it as its
/// number of faults.
#[derive(Drop)]
pub struct FileShelf<'a, R: Files> {
    runtime: &'a R,
    script: &'a str,
    history: &'a str,
    faults: u64,
}

impl<'a, R: Files> Model for FileShelf<'a, R> {
    ghost use Rattle.std.specs.Prelude.{ℕ};

    ghost Value = { ℕ };

    ghost view = { λ shelf. shelf.faults };
}

impl<'a, R: Files> FileShelf<'a, R> {
    /// The files of the runtime. The name `script` is opened as it is. Any other name is relative to the folder of that
    /// file, unless it is absolute. So a name that is spelled like `script` is the script itself.
    pub fn new(runtime: &'a R, script: &'a str) -> FileShelf<'a, R>
        ensures no_faults_yet { result ≡ 0 }
    {
        FileShelf::with_history(runtime, script, script)
    }

    /// The same, with the name of a printed history, which is opened as it is too.
    pub fn with_history(runtime: &'a R, script: &'a str, history: &'a str) -> FileShelf<'a, R>
        ensures no_faults_yet { result ≡ 0 }
    {
        FileShelf {
            runtime,
            script,
            history,
            faults: 0,
        }
    }
}

impl<'a, R: Files> Shelf for FileShelf<'a, R> {
    ghost told = { λ _. None };

    ghost faults = { λ shelf. shelf };

    /// It is a failure if the file cannot be opened or a call reports an error, including an interruption. Each failure
    /// increments the number of faults.
    fn read(
        &mut self,
        alloc: Global,
        name: &str,
        limit: usize,
        into: &mut Vec<u8>,
    ) -> Result<(), ShelfFault>
        ensures faults_never_fall { self.old ≤ self.new }
        ensures failed_only_where_faults_rose { result ≡ Err ShelfFault.Failed → Rose self.old self.new }
        ensures into_gains { Gains limit into.old.items into.new.items result }
        ensures memory_counts_nothing { result ≡ Err ShelfFault.Memory → self.new ≡ self.old }

        ensures failures_are_counted { self.new ≡ faults_after_read self.old result }
    {
        let start = into.len();
        let result = match path_from(alloc, self.script, self.history, name) {
            Ok(path) => read_path(self.runtime, path.as_path(), limit, into),
            Err(_) => Err(ShelfFault::Memory),
        };
        if let Err(fault) = result
            && fault != ShelfFault::TooLong
        {
            into.truncate(start);
            if fault == ShelfFault::Failed {
                self.faults = self.faults.saturating_add(1);
            }
        }
        result
    }
}

// The path of the file with this name.
fn path_from(alloc: Global, script: &str, history: &str, name: &str) -> Result<PathBuf, AllocError>
    ensures { IfOk result (λ path. path_buf_bytes path ≡ path_from script.now history.now name.now) }
{
    if name == script {
        return PathBuf::from_str(alloc, name);
    }
    if name == history {
        return PathBuf::from_str(alloc, name);
    }
    match Path::new(script).parent() {
        Some(folder) => folder.join(alloc, name),
        None => PathBuf::from_str(alloc, name),
    }
}

// Appends the file's bytes, at most one more than the limit.
fn read_path<R: Files>(
    runtime: &R,
    path: Path<'_>,
    limit: usize,
    into: &mut Vec<u8>,
) -> Result<(), ShelfFault>
    ensures { Extends limit into.old.items into.new.items result }
{
    read_opened(fs::open(runtime, path), limit, into)
}

// Appends the bytes of a file, at most one more than the limit. It is a failure if the file was not opened.
fn read_opened<F: Read + Drop>(
    opened: io::Result<F>,
    limit: usize,
    into: &mut Vec<u8>,
) -> Result<(), ShelfFault>
    ensures into_extends { Extends limit into.old.items into.new.items result }
    ensures not_opened { IsErr opened → result ≡ Err ShelfFault.Failed }
{
    match opened {
        Ok(mut file) => read_to_limit(&mut file, limit, into),
        Err(_) => Err(ShelfFault::Failed),
    }
}

// Appends the reader's bytes, at most one more than the limit.
fn read_to_limit<F: Read>(file: &mut F, limit: usize, into: &mut Vec<u8>) -> Result<(), ShelfFault>
    ensures into_extends { Extends limit into.old.items into.new.items result }
    ensures reads_to_the_end { OnOk result (IsAtEnd (F.remaining file.new)) }
    ensures none_lost { result ≢ Err ShelfFault.Memory → Consumes (F.remaining file.old) (F.remaining file.new) (appended_bytes into.old.items into.new.items) }
{
    let mut chunk = [0; CHUNK];
    let mut gained = 0;
    while gained <= limit {
        let want = (limit - gained).min(CHUNK - 1) + 1;
        match file.read(&mut chunk[..want]) {
            Ok(0) => return Ok(()),
            Ok(count) => {
                append(&chunk[..count], into)?;
                gained += count;
            }
            Err(_) => return Err(ShelfFault::Failed),
        }
    }
    Err(ShelfFault::TooLong)
}
