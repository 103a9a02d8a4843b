//! The public call.

ghost use Rattle.std.specs.Prelude.{◌≡◌, ◌⊎◌, Err, Result};
ghost use Rattle.raw_trees.specs.Plain.{PlainModule};
ghost use Rattle.module_parser.specs.Modules.{ModuleText, shown};

use crate::module::module;
use rapid_forms::{Parser, SyntaxFault, Tokens};
use rapid_lexer::{TokensFault, read_tokens};
use raw_trees::RawModule;
use std::alloc::Global;

/// The tree of the whole text (RAPID Kernel, module declarations). A lexical fault, wherever it is, wins over a fault
/// of the tokens.
pub fn parse_module(alloc: Global, source: &[u8]) -> Result<RawModule<'_>, SyntaxFault>
    ensures answer { (result ≡ Err SyntaxFault.Memory) ⊎ ModuleText source.now (shown result) }
    // The text has no other result.
    ensures only { (other : Result PlainModule SyntaxFault) → ModuleText source.now other → (result ≡ Err SyntaxFault.Memory) ⊎ (shown result ≡ other) }
{
    match read_tokens(alloc, source) {
        Ok(tokens) => {
            let p = Parser {
                alloc,
                tokens: Tokens {
                    list: tokens.as_slice(),
                    end: source.len(),
                },
            };
            let (tree, next) = module(&p, 0)?;
            if next < tokens.len() {
                return Err(p.tokens.fails(next));
            }
            Ok(tree)
        }
        Err(TokensFault::Lex(fault)) => Err(SyntaxFault::Lex(fault)),
        Err(TokensFault::Memory) => Err(SyntaxFault::Memory),
    }
}
