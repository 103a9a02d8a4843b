//! The public call.

ghost use Rattle.std.specs.Prelude.{◌≤◌, ◌-◌, length};
ghost use Rattle.rapid_lexer.specs.Tokens.{views};
ghost use Rattle.raw_trees.specs.Views.{view_list};
ghost use Rattle.rapid_forms.specs.Parsed.{Parses};
ghost use Rattle.stmt_parser.specs.Grammar.{items};

use crate::statements::items;
use rapid_forms::{Parser, SyntaxFault, Tokens};
use rapid_lexer::Token;
use rapid_limits::MOST_LEVELS;
use raw_trees::RawStmt;
use std::alloc::Global;

/// The statements from token `at` on, as many as there are, and the number of the token after them. `depth` levels of
/// nesting are open before token `at`, including that of the list, and `end` is the length of the text in bytes.
/// module_parser calls `list`, with one `Parser` for a text; this is for a tool that parses one list of statements.
pub fn parse_list<'a>(
    alloc: Global,
    tokens: &[Token<'a>],
    at: usize,
    depth: u32,
    end: usize,
) -> Result<(Vec<RawStmt<'a>>, usize), SyntaxFault>
    requires there { at ≤ length tokens.now }
    requires open { depth ≤ MOST_LEVELS }
    ensures answer { Parses items (MOST_LEVELS - depth) (views tokens.now) end at view_list result }
{
    let p = Parser {
        alloc,
        tokens: Tokens { list: tokens, end },
    };
    let (list, next) = items(&p, at, MOST_LEVELS - depth)?;
    Ok((list, next.min(tokens.len())))
}
