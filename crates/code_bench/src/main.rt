//! Compiles the module on standard input as often as its argument says, else once, and prints the number of operations
//! of its code. The module is checked as the one of a task `A` with an arm, in a cell with the signal `di_feeder`. For
//! `bench/run`.
#![tactic(auto)]

use code_compiler::link_routines;
use data_scopes::Known;
use module_parser::parse_module;
use rapid_model::{NameText, SignalRow};
use std::alloc::{AllocError, Global};
use std::io::Read;
use std::{env, io};
use task_types::check_task;
use typed_trees::Tree;

fn main(rt: HostRuntime) -> io::Result<()> {
    let mut source = Vec::new(rt.alloc());
    rt.reader().read_to_end(&mut source)?;
    let passes = match env::args(&rt)?.nth(1) {
        Some(word) => word.parse().unwrap_or(1),
        None => 1,
    };
    match compiled_often(rt.alloc(), source.as_slice(), passes) {
        Told::Code { operations } => println!(rt; "{operations} operations"),
        Told::Refused => println!(rt; "a module that is refused"),
        Told::Memory => println!(rt; "want of memory"),
    }
}

/// The outcome of a text.
#[derive(Drop)]
enum Told {
    Code { operations: usize },
    Refused,
    Memory,
}

fn compiled_often(alloc: Global, text: &[u8], passes: u32) -> Told {
    match tree_of(alloc, text) {
        Ok(Some(tree)) => code_of(alloc, &tree, passes),
        Ok(None) => Told::Refused,
        Err(_) => Told::Memory,
    }
}

fn code_of(alloc: Global, tree: &Tree, passes: u32) -> Told {
    let mut told = Told::Code { operations: 0 };
    for _ in 0..passes {
        told = match link_routines(alloc, tree) {
            Ok(code) => Told::Code {
                operations: code.ops.len(),
            },
            Err(_) => Told::Memory,
        };
    }
    told
}

/// The tree of a task of one module, if its text is correct. Fails only if an allocation fails.
fn tree_of(alloc: Global, text: &[u8]) -> Result<Option<Tree>, AllocError> {
    let tasks = vec![in alloc; name(b"A")]?;
    let signals = vec![in alloc;
        SignalRow {
            name: name(b"di_feeder"),
            output: false,
            start: false
        },
    ]?;
    let known = Known {
        tasks: tasks.as_slice(),
        signals: signals.as_slice(),
        axes: 6,
    };
    match parse_module(alloc, text) {
        Ok(module) => {
            let modules = vec![in alloc; module]?;
            Ok(check_task(alloc, modules.as_slice(), &known).ok())
        }
        Err(_) => Ok(None),
    }
}

fn name(bytes: &[u8]) -> NameText {
    let mut name = NameText::new();
    for byte in bytes {
        name.push(*byte);
    }
    name
}
