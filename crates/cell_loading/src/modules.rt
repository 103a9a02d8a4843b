ghost use Rattle.std.specs.Prelude.{◌≡◌, ◌<◌, ◌^◌, ℕ, None, Some, IfOk, IfErr, IfSome, take, drop, length, slice_get, All};
ghost use Rattle.cell_loading.specs.ReadModules.{place_at, fault_refusal, module_refusal, read_file, read_text};
ghost use Rattle.cell_loading.specs.Files.{IsLoadFault};
ghost use Rattle.cell_loading.specs.Loaded.{IsWithin, ArePaired, IsParsed, AreParsed, reads_in};

use crate::refused::{ModuleRule, Refused};
use module_parser::parse_module;
use rapid_forms::SyntaxFault;
use rapid_lexer::{Place, place_of};
use raw_trees::RawModule;
use std::alloc::Global;

/// Modules that were read, each with its text and its tree, and the number of the first one's file. The others' files
/// follow.
#[derive(Clone, Copy)]
pub struct Modules<'m, 'a> {
    pub first: u32,
    pub texts: &'a [Vec<u8>],
    pub trees: &'m [RawModule<'a>],
}

/// The trees of all texts, the first of which is that of file 1. Otherwise the first refusal, where a failure to read
/// comes last.
pub fn parse_texts(
    alloc: Global,
    texts: &[Vec<u8>],
    failed: Option<Refused>,
) -> Result<Vec<RawModule<'_>>, Refused>
    requires few { length texts.now < 2 ^ 31 }
    requires within { All IsWithin texts.now }
    ensures parsed { AreParsed texts.now failed result }
    ensures whole { IfOk result (λ trees. failed ≡ None) }
    ensures each { IfOk result (λ trees. length texts.now ≡ length trees.items) }
    ensures causes { (old new : ℕ) → IfSome failed (IsLoadFault old new) → IfErr result (IsLoadFault old new) }
{
    let mut trees = Vec::new(alloc);
    for (k, text) in texts.iter().enumerate() {
        let tree = parse_text(alloc, k as u32 + 1, text.as_slice())?;
        trees.push(tree)?;
    }
    match failed {
        Some(refused) => Err(refused),
        None => Ok(trees),
    }
}

/// The tree of the text of the file of this number.
fn parse_text<'a>(alloc: Global, file: u32, text: &'a [u8]) -> Result<RawModule<'a>, Refused>
    requires { length text.now < 2 ^ 31 }
    ensures parsed { IsParsed file text.now result }
    ensures causes { (old new : ℕ) → IfErr result (IsLoadFault old new) }
{
    match parse_module(alloc, text) {
        Ok(tree) => Ok(tree),
        Err(fault) => Err(refusal(file, text, fault)),
    }
}

/// The refusal for a fault of the text in the file of this number.
fn refusal(file: u32, text: &[u8], fault: SyntaxFault) -> Refused
    requires { length text.now < 2 ^ 31 }
    ensures { result ≡ fault_refusal file text.now fault }
{
    match fault {
        SyntaxFault::Lex(fault) => Refused::Module {
            file,
            place: place_in(text, fault.at),
            rule: ModuleRule::Lex(fault.rule),
        },
        SyntaxFault::Rule { rule, at } => Refused::Module {
            file,
            place: place_in(text, at),
            rule: ModuleRule::Syntax(rule),
        },
        SyntaxFault::Memory => Refused::Memory,
    }
}

/// The line and the column of a byte of a text.
fn place_in(text: &[u8], at: usize) -> Place
    requires { length text.now < 2 ^ 31 }
    ensures { result ≡ place_at text.now at }
{
    place_of(text, at.min(text.len()))
}

/// The first modules, this many.
pub(crate) fn first_modules<'m, 'a>(modules: &Modules<'m, 'a>, count: usize) -> Modules<'m, 'a>
    requires { ArePaired modules.now }
    ensures paired { ArePaired result }
    ensures taken { reads_in result ≡ take count (reads_in modules.now) }
    ensures trees { result.trees.now ≡ take count modules.now.trees.now }
{
    let count = count.min(modules.trees.len());
    Modules {
        first: modules.first,
        texts: &modules.texts[..count],
        trees: &modules.trees[..count],
    }
}

/// The modules after the first ones, given how many these are.
pub(crate) fn later_modules<'m, 'a>(modules: &Modules<'m, 'a>, count: usize) -> Modules<'m, 'a>
    requires { ArePaired modules.now }
    ensures paired { ArePaired result }
    ensures dropped { reads_in result ≡ drop count (reads_in modules.now) }
{
    let count = count.min(modules.trees.len());
    Modules {
        first: modules.first + count as u32,
        texts: &modules.texts[count..],
        trees: &modules.trees[count..],
    }
}

/// The refusal for a rule, at a byte of the module of this number, from 0.
pub(crate) fn module_refusal(
    modules: &Modules<'_, '_>,
    number: usize,
    at: usize,
    rule: ModuleRule,
) -> Refused
    requires { ArePaired modules.now }
    ensures { result ≡ module_refusal (reads_in modules.now) number at rule }
{
    Refused::Module {
        file: file_at(modules, number),
        place: place_in(text_at(modules, number), at),
        rule,
    }
}

/// The number of the file of the module of this number, from 0; 0 if there is none.
fn file_at(modules: &Modules<'_, '_>, number: usize) -> u32
    requires { ArePaired modules.now }
    ensures { result ≡ read_file (slice_get (reads_in modules.now) number) }
{
    if number < modules.texts.len() {
        modules.first + number as u32
    } else {
        0
    }
}

/// The text of the module of this number, from 0; empty if there is none.
fn text_at<'a>(modules: &Modules<'_, 'a>, number: usize) -> &'a [u8]
    requires { ArePaired modules.now }
    ensures text { result.now ≡ read_text (slice_get (reads_in modules.now) number) }
    ensures short { length result.now < 2 ^ 31 }
{
    match modules.texts.get(number) {
        Some(text) => text.as_slice(),
        None => b"",
    }
}
