//! `rapid_cell`: runs cells of RAPID tasks.
#![tactic(auto)]

use outside::{FileShelf, NoPace, StreamSink};
use std::alloc::AllocError;
use std::env::FillError;
use std::io::Write;
use std::process::ExitCode;
use std::rt::{Env, Files};
use std::str;
use std::sync::Wait;
use std::thread::Threads;

/// The length of the buffer that a word is first read into, in bytes.
const WORD_BYTES: usize = 256;

fn main(rt: HostRuntime) -> ExitCode {
    ExitCode::from(run(&rt, rt.stdout(), rt.stderr()))
}

/// Does what the command words say, with real files and these streams, and returns the status.
fn run<R, O, E>(rt: &R, out: O, err: E) -> u8
where
    R: Env + Files + AllocGlobal + Threads + Wait + Sync,
    O: Write + Drop,
    E: Write + Drop,
{
    let mut out = StreamSink::new(out);
    let mut err = StreamSink::new(err);
    let Ok(words) = given_words(rt) else {
        return controller::out_of_memory(rt.alloc(), &mut err).status;
    };
    let script = word_at(words.as_slice(), 1);
    let history = word_at(words.as_slice(), 2);
    let mut shelf = FileShelf::with_history(rt, script, history);
    let report = controller::controller(
        rt,
        rt.alloc(),
        words.as_slice(),
        &mut shelf,
        &mut out,
        &mut err,
        &NoPace,
    );
    report.status
}

/// The words after the program's name, as bytes. Fails only if an allocation fails.
fn given_words<R: Env + AllocGlobal>(rt: &R) -> Result<Vec<Vec<u8>>, AllocError> {
    let mut words = Vec::new(rt.alloc());
    for index in 1..usize::MAX {
        match given_word(rt, index)? {
            Some(word) => words.push(word)?,
            None => break,
        }
    }
    Ok(words)
}

/// The word with this index, if there is one, in a buffer that is doubled until the word fits. Fails only if an
/// allocation fails.
fn given_word<R: Env + AllocGlobal>(rt: &R, index: usize) -> Result<Option<Vec<u8>>, AllocError> {
    let mut length = WORD_BYTES;
    for _ in 0..usize::BITS {
        let mut word = Vec::new(rt.alloc());
        word.resize(length, 0)?;
        match rt.arg(index, word.as_mut_slice()) {
            Ok(written) => {
                word.truncate(written);
                return Ok(Some(word));
            }
            Err(FillError::NotPresent) => return Ok(None),
            Err(FillError::TooLong) => length = length.saturating_mul(2),
        }
    }
    Err(AllocError)
}

/// The word with this index among those that are not `--history`: the action has 0, its files' names follow. Empty if it
/// is missing or not valid UTF-8.
fn word_at(words: &[Vec<u8>], index: usize) -> &str {
    let mut left = index;
    for word in words {
        if word.as_slice() == b"--history".as_slice() {
            continue;
        }
        if left == 0 {
            return str::from_utf8(word.as_slice()).unwrap_or("");
        }
        left -= 1;
    }
    ""
}
