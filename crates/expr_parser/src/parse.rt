//! The call for tokens without a `Parser`.

ghost use Rattle.std.specs.Prelude.{◌≤◌, ◌-◌, length};
ghost use Rattle.rapid_lexer.specs.Tokens.{views};
ghost use Rattle.raw_trees.specs.Views.{view_expr};
ghost use Rattle.rapid_forms.specs.Parsed.{Parses};
ghost use Rattle.expr_parser.specs.Grammar.{expr};

use crate::chains::expr;
use rapid_forms::{Parser, SyntaxFault, Tokens};
use rapid_lexer::Token;
use rapid_limits::MOST_LEVELS;
use raw_trees::RawExpr;
use std::alloc::Global;

/// The expression that starts at token `at`, and the number of the token after it. `depth` levels of nesting are open
/// before token `at`, and `end` is the length of the text in bytes. The parsers of statements and modules call the
/// parts, with one `Parser` for a text; this is for a tool that parses one expression.
pub fn parse_expr<'a>(
    alloc: Global,
    tokens: &[Token<'a>],
    at: usize,
    depth: u32,
    end: usize,
) -> Result<(RawExpr<'a>, usize), SyntaxFault>
    requires there { at ≤ length tokens.now }
    requires open { depth ≤ MOST_LEVELS }
    ensures answer { Parses expr (MOST_LEVELS - depth) (views tokens.now) end at view_expr result }
{
    let p = Parser {
        alloc,
        tokens: Tokens { list: tokens, end },
    };
    let (tree, next) = expr(&p, at, MOST_LEVELS - depth)?;
    Ok((tree, next.min(tokens.len())))
}
