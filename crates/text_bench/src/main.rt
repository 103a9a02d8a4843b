//! Reads the module on its standard input many times and prints the result: with the word `tokens` only the number of
//! tokens, else the result for the whole module. For `bench/run`.
#![tactic(auto)]

use module_parser::parse_module;
use rapid_forms::SyntaxFault;
use rapid_lexer::Lexer;
use std::alloc::Global;
use std::io::Read;
use std::{env, io};

/// How many times the tokens are counted.
const LEXER_PASSES: u32 = 20;

/// How many times the module is parsed.
const PARSER_PASSES: u32 = 10;

fn main(rt: HostRuntime) -> io::Result<()> {
    let mut source = Vec::new(rt.alloc());
    rt.reader().read_to_end(&mut source)?;
    if asks_tokens(&rt)? {
        let count = count_often(source.as_slice());
        println!(rt; "{count} tokens")
    } else {
        match parse_often(rt.alloc(), source.as_slice()) {
            Told::Module { items } => println!(rt; "a module of {items} items"),
            Told::Fault { at } => println!(rt; "a fault at byte {at}"),
            Told::Memory => println!(rt; "want of memory"),
        }
    }
}

/// Whether the first word is `tokens`.
fn asks_tokens(rt: &HostRuntime) -> io::Result<bool> {
    let mut words = env::args(rt)?.skip(1);
    match words.next() {
        Some(word) => Ok(word.as_str() == "tokens"),
        None => Ok(false),
    }
}

fn count_often(source: &[u8]) -> usize {
    let mut count = 0;
    for _ in 0..LEXER_PASSES {
        count = tokens_of(source);
    }
    count
}

/// The number of tokens before the end or the first error.
fn tokens_of(source: &[u8]) -> usize {
    let mut lexer = Lexer::new(source);
    for count in 0..source.len() {
        if !matches!(lexer.next_token(), Some(Ok(_))) {
            return count;
        }
    }
    source.len()
}

/// The result for a text.
#[derive(Drop)]
enum Told {
    Module { items: usize },
    Fault { at: usize },
    Memory,
}

fn parse_often(alloc: Global, text: &[u8]) -> Told {
    let mut told = Told::Memory;
    for _ in 0..PARSER_PASSES {
        told = parse(alloc, text);
    }
    told
}

fn parse(alloc: Global, text: &[u8]) -> Told {
    match parse_module(alloc, text) {
        Ok(module) => Told::Module {
            items: module.items.len(),
        },
        Err(SyntaxFault::Rule { at, .. }) => Told::Fault { at },
        Err(SyntaxFault::Lex(fault)) => Told::Fault { at: fault.at },
        Err(SyntaxFault::Memory) => Told::Memory,
    }
}
