//! Looks up predefined names, as the lines of the standard input say, and prints after each line what is found:
//!
//! - `names NAME ..`: the instruction, the function, the type or the datum that each name stands for;
//! - `call NAME`: what a function's arguments and result are, or what an instruction's arguments are, how many options it
//!   has and how many of them a call may have, and whether it needs an arm;
//! - `option NAME OPTION`: what the option of an instruction takes;
//! - `datum NAME`: the type and the value of a predefined datum.
//!
//! In a name `$` is the byte 10, `&` the byte 7F, `+` a blank, and `''` is the empty name.
#![tactic(auto)]

use anyhow::{Context, bail};
use rapid_builtins::{
    choice, function, function_needs, function_needs_arm, function_result, instruction,
    instruction_needs, is_predefined, needs_arm, option_of, options, predefined, predefined_datum,
};
use std::alloc::{AllocError, Global};

fn main(rt: HostRuntime) -> anyhow::Result<()> {
    for line in rt.lines(rt.alloc()) {
        let line = line?;
        let (what, rest) = line.as_str().split_once(' ').context("two words a line")?;
        let told = told_of(rt.alloc(), what, rest)?;
        println!(rt; "{}: {}", line.as_str(), told.as_str())?;
    }
    Ok(())
}

/// What is found.
fn told_of(alloc: Global, what: &str, rest: &str) -> anyhow::Result<String> {
    match what {
        "names" => names_told(alloc, rest),
        "call" => call_told(alloc, rest.as_bytes()),
        "option" => option_told(alloc, rest),
        "datum" => datum_told(alloc, rest.as_bytes()),
        _ => bail!("{what} is nothing to look up"),
    }
}

/// The bytes of a name.
fn spelled(alloc: Global, name: &str) -> Result<Vec<u8>, AllocError> {
    let mut bytes = Vec::new(alloc);
    if name == "''" {
        return Ok(bytes);
    }
    for byte in name.bytes() {
        bytes.push(match byte {
            b'$' => 0x10,
            b'&' => 0x7F,
            b'+' => b' ',
            other => other,
        })?;
    }
    Ok(bytes)
}

fn names_told(alloc: Global, names: &str) -> anyhow::Result<String> {
    let mut told = String::new(alloc);
    for (number, name) in names.split(' ').enumerate() {
        if number > 0 {
            told.push_str(", ")?;
        }
        let name = spelled(alloc, name)?;
        told.push_str(name_told(alloc, name.as_slice())?.as_str())?;
    }
    Ok(told)
}

/// What a name stands for.
fn name_told(alloc: Global, name: &[u8]) -> Result<String, AllocError> {
    match (instruction(name), function(name), predefined(name)) {
        (Some(it), None, None) if is_predefined(name) => format!(in alloc; "instruction {it:?}"),
        (None, Some(it), None) if is_predefined(name) => format!(in alloc; "function {it:?}"),
        (None, None, Some(it)) if is_predefined(name) => format!(in alloc; "{it:?}"),
        (None, None, None) if !is_predefined(name) => String::from_str(alloc, "nothing"),
        _ => String::from_str(alloc, "several"),
    }
}

fn call_told(alloc: Global, name: &[u8]) -> anyhow::Result<String> {
    if let Some(it) = function(name) {
        let (needs, result, arm) = (
            function_needs(it),
            function_result(it),
            function_needs_arm(it),
        );
        return Ok(format!(in alloc; "{needs:?} {result:?} {arm}")?);
    }
    let it = instruction(name).context("a function or an instruction")?;
    let (needs, options, arm) = (instruction_needs(it), options(it).len(), needs_arm(it));
    Ok(format!(in alloc; "{needs:?} {options} {:?} {arm}", choice(it))?)
}

fn option_told(alloc: Global, words: &str) -> anyhow::Result<String> {
    let (name, option) = words
        .split_once(' ')
        .context("an instruction and an option")?;
    let it = instruction(name.as_bytes()).context("an instruction")?;
    let option = spelled(alloc, option)?;
    let value = option_of(it, option.as_slice()).map(|option| option.value);
    Ok(format!(in alloc; "{value:?}")?)
}

fn datum_told(alloc: Global, name: &[u8]) -> anyhow::Result<String> {
    let it = predefined(name).context("a predefined name")?;
    Ok(format!(in alloc; "{:?}", predefined_datum(it))?)
}
