//! Reads the history on its standard input as many times as the second word says, or once. If the first word is
//! `print`, it reads it once and prints the lines of its events that many times. Prints the outcome. The history is
//! that of a cell with the task `L1` and a persistent num. For `bench/run`.
#![tactic(auto)]

mod names;

ghost use Rattle.std.specs.Prelude.{◌<◌, ◌^◌, length};
ghost use Rattle.history_text.specs.HistoryText.{AreNamed};

use arrayvec::ArrayString;
use history_text::{HistoryFault, Names, line_of, read_history};
use names::{one_num, one_task};
use rapid_model::Event;
use std::alloc::Global;
use std::io::Read;
use std::{env, io};

/// The most bytes that are read.
const LONGEST: usize = 1_000_000_000;

fn main(rt: HostRuntime) -> io::Result<()> {
    let mut source = Vec::new(rt.alloc());
    rt.reader().read_to_end(&mut source)?;
    if source.len() > LONGEST {
        return println!(rt; "more than {LONGEST} bytes");
    }
    let tasks = one_task(rt.alloc())?;
    let pers = one_num(rt.alloc())?;
    let names = Names {
        tasks: tasks.as_slice(),
        signals: &[],
        pers: pers.as_slice(),
    };
    let mut words = env::args(&rt)?.skip(1);
    let prints = match words.next() {
        Some(word) => word.as_str() == "print",
        None => false,
    };
    let passes = match words.next() {
        Some(word) => word.parse().unwrap_or(1),
        None => 1,
    };
    match told_of(rt.alloc(), &names, source.as_slice(), prints, passes) {
        Told::Read { events, fates } => println!(rt; "{events} events, {fates} fates"),
        Told::Printed { bytes } => println!(rt; "{bytes} bytes"),
        Told::Fault { line } => println!(rt; "a fault in line {line}"),
        Told::Memory => println!(rt; "out of memory"),
    }
}

/// The outcome.
#[derive(Drop)]
enum Told {
    Read { events: usize, fates: usize },
    Printed { bytes: usize },
    Fault { line: u32 },
    Memory,
}

/// Reads once and then prints this many times, or reads this many times.
fn told_of(alloc: Global, names: &Names, text: &[u8], prints: bool, passes: u32) -> Told
    requires names { AreNamed names.now.tasks.now }
    requires short { length text.now < 2 ^ 31 }
{
    let mut told = Told::Read {
        events: 0,
        fates: 0,
    };
    let reads = if prints { 1 } else { passes };
    for _ in 0..reads {
        told = match read_history(alloc, names, text) {
            Ok((events, _)) if prints => Told::Printed {
                bytes: print_often(names, events.as_slice(), passes),
            },
            Ok((events, fates)) => Told::Read {
                events: events.len(),
                fates: fates.len(),
            },
            Err(HistoryFault::Line(line)) => Told::Fault { line },
            Err(HistoryFault::Memory) => Told::Memory,
        };
    }
    told
}

/// Prints the lines of the events this many times, and returns how many bytes they have.
fn print_often(names: &Names, events: &[Event], passes: u32) -> usize {
    let mut line = ArrayString::new();
    let mut bytes = 0usize;
    for _ in 0..passes {
        for event in events {
            line.clear();
            line_of(names, event, true, &mut line);
            bytes = bytes.wrapping_add(line.len());
        }
    }
    bytes
}
