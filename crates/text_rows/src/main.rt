//! Reads the texts of the lines of the standard input, and prints after each line what its text is:
//!
//! - `tokens TEXT`: the kind of each token, the byte at which it starts and its length, or `none`;
//! - `third TEXT`: what a lexer answers to the third question;
//! - `string TEXT`: the text that a string literal spells, or `none`;
//! - `expr TEXT` and `list TEXT`: how many tokens the expression at its start has, or the statements there, or the error.
//!
//! In a text `$` is a line feed, `` ` `` the byte FF, `@` the byte 0 and `&` the byte 7F.
#![tactic(auto)]

use anyhow::{Context, bail};
use expr_parser::parse_expr;
use rapid_forms::SyntaxFault;
use rapid_lexer::{Lexer, Token, read_tokens};
use std::alloc::{AllocError, Global};
use stmt_parser::parse_list;
use string_texts::text_of;

fn main(rt: HostRuntime) -> anyhow::Result<()> {
    for line in rt.lines(rt.alloc()) {
        let line = line?;
        let (what, rest) = line.as_str().split_once(' ').context("two words a line")?;
        let source = spelled(rt.alloc(), rest)?;
        let told = told_of(rt.alloc(), what, source.as_slice())?;
        println!(rt; "{}: {}", line.as_str(), told.as_str())?;
    }
    Ok(())
}

/// The bytes that a text spells.
fn spelled(alloc: Global, text: &str) -> Result<Vec<u8>, AllocError> {
    let mut bytes = Vec::new(alloc);
    for byte in text.bytes() {
        bytes.push(match byte {
            b'$' => b'\n',
            b'`' => 0xFF,
            b'@' => 0,
            b'&' => 0x7F,
            other => other,
        })?;
    }
    Ok(bytes)
}

/// What a text is.
fn told_of(alloc: Global, what: &str, source: &[u8]) -> anyhow::Result<String> {
    match what {
        "tokens" => tokens_told(alloc, source),
        "third" => third_told(alloc, source),
        "string" => string_told(alloc, source),
        "expr" => expr_told(alloc, source),
        "list" => list_told(alloc, source),
        _ => bail!("{what} is no kind of text"),
    }
}

fn tokens_told(alloc: Global, source: &[u8]) -> anyhow::Result<String> {
    let mut told = String::new(alloc);
    let Ok(tokens) = read_tokens(alloc, source) else {
        told.push_str("none")?;
        return Ok(told);
    };
    for (number, token) in tokens.iter().enumerate() {
        if number > 0 {
            told.push_str(", ")?;
        }
        told.push_str(token_told(alloc, token)?.as_str())?;
    }
    Ok(told)
}

fn token_told(alloc: Global, token: &Token<'_>) -> Result<String, AllocError> {
    format!(in alloc; "{:?} {} {}", token.kind, token.at, token.text.len())
}

fn third_told(alloc: Global, source: &[u8]) -> anyhow::Result<String> {
    let mut lexer = Lexer::new(source);
    let _first = lexer.next_token();
    let _second = lexer.next_token();
    Ok(match lexer.next_token() {
        Some(Ok(token)) => token_told(alloc, &token)?,
        Some(Err(fault)) => format!(in alloc; "{:?} {}", fault.rule, fault.at)?,
        None => String::from_str(alloc, "the end")?,
    })
}

fn string_told(alloc: Global, source: &[u8]) -> anyhow::Result<String> {
    Ok(match text_of(source) {
        Some(text) => format!(in alloc; "{}", text.bytes().escape_ascii())?,
        None => String::from_str(alloc, "none")?,
    })
}

fn expr_told(alloc: Global, source: &[u8]) -> anyhow::Result<String> {
    let tokens = read_tokens(alloc, source).ok().context("tokens")?;
    match parse_expr(alloc, tokens.as_slice(), 0, 0, source.len()) {
        Ok((tree, next)) => Ok(format!(in alloc; "{next} from byte {}", tree.at)?),
        Err(fault) => fault_told(alloc, &fault),
    }
}

fn list_told(alloc: Global, source: &[u8]) -> anyhow::Result<String> {
    let tokens = read_tokens(alloc, source).ok().context("tokens")?;
    match parse_list(alloc, tokens.as_slice(), 0, 0, source.len()) {
        Ok((list, next)) => Ok(format!(in alloc; "{next} of {} statements", list.len())?),
        Err(fault) => fault_told(alloc, &fault),
    }
}

fn fault_told(alloc: Global, fault: &SyntaxFault) -> anyhow::Result<String> {
    match fault {
        SyntaxFault::Rule { rule, at } => Ok(format!(in alloc; "{rule:?} {at}")?),
        _ => bail!("another fault than one of the grammar"),
    }
}
