//! Forms between two marks. Each opens a level.

ghost use Rattle.std.specs.Prelude.{◌∷◌, []};
ghost use Rattle.raw_trees.specs.Views.{view_expr};
ghost use Rattle.rapid_forms.specs.Reading.{Gives, made_read, rest_from, seq_read};
ghost use Rattle.expr_parser.specs.Grammar.{behind};
ghost use Rattle.expr_parser.specs.Parts.{view_exprs};
ghost use Rattle.expr_parser.specs.Reads.{expr_of_read, exprs_read, inside_read, mark_read};

use crate::chains::expr;
use rapid_forms::{Parser, Sign, SyntaxFault};
use raw_trees::RawExpr;

/// An expression in parentheses.
#[cycle(expr)]
#[tactic(auto, unfolding(crate::specs::Reads::inside_read, crate::specs::Reads::group_read, rapid_forms::specs::Reading::made_read, rapid_forms::specs::Reading::seq_read, rapid_forms::specs::Reading::then_read, rapid_forms::specs::Reading::nothing_read))]
pub(crate) fn group<'a>(
    p: &Parser<'_, 'a>,
    at: usize,
    left: u32,
) -> Result<(RawExpr<'a>, usize), SyntaxFault>
    ensures { Gives p.now.tokens view_expr result ((inside_read left).group (rest_from p.now.tokens at)) }
{
    if left == 0 {
        return Err(p.tokens.no_level(at, &[Sign::OpenParenthesis]));
    }
    let (_open, first) = p.tokens.take(at, &[Sign::OpenParenthesis])?;
    let (value, next) = expr(p, first, left - 1)?;
    let (_close, end) = p.tokens.take(next, &[Sign::CloseParenthesis])?;
    let group = RawExpr::group(p.alloc, p.tokens.byte_at(at), value)?;
    Ok((group, end))
}

/// Values in brackets.
#[cycle(expr)]
#[tactic(auto, unfolding(crate::specs::Reads::inside_read, crate::specs::Reads::aggregate_read, rapid_forms::specs::Reading::made_read, rapid_forms::specs::Reading::seq_read, rapid_forms::specs::Reading::then_read, rapid_forms::specs::Reading::nothing_read))]
pub(crate) fn aggregate<'a>(
    p: &Parser<'_, 'a>,
    at: usize,
    left: u32,
) -> Result<(RawExpr<'a>, usize), SyntaxFault>
    ensures { Gives p.now.tokens view_expr result ((inside_read left).aggregate (rest_from p.now.tokens at)) }
{
    if left == 0 {
        return Err(p.tokens.no_level(at, &[Sign::OpenBracket]));
    }
    let (_open, first) = p.tokens.take(at, &[Sign::OpenBracket])?;
    let (values, next) = exprs(p, first, left - 1)?;
    let (_close, end) = p.tokens.take(next, &[Sign::CloseBracket])?;
    Ok((RawExpr::aggregate(p.tokens.byte_at(at), values), end))
}

/// An index in braces, within `left` levels, and the number of the token after it.
#[cycle(expr)]
#[tactic(auto, unfolding(crate::specs::Reads::inside_read, crate::specs::Reads::index_read, rapid_forms::specs::Reading::made_read, rapid_forms::specs::Reading::seq_read, rapid_forms::specs::Reading::then_read, rapid_forms::specs::Reading::nothing_read))]
pub fn index<'a>(
    p: &Parser<'_, 'a>,
    at: usize,
    left: u32,
) -> Result<(RawExpr<'a>, usize), SyntaxFault>
    ensures { Gives p.now.tokens view_expr result ((inside_read left).index (rest_from p.now.tokens at)) }
{
    if left == 0 {
        return Err(p.tokens.no_level(at, &[Sign::OpenBrace]));
    }
    let (_open, first) = p.tokens.take(at, &[Sign::OpenBrace])?;
    let (value, next) = expr(p, first, left - 1)?;
    let (_close, end) = p.tokens.take(next, &[Sign::CloseBrace])?;
    Ok((value, end))
}

/// One or more expressions separated by commas, within `left` levels, and the number of the token after them.
#[cycle(expr)]
#[tactic(auto, unfolding(crate::specs::Reads::exprs_read, rapid_forms::specs::Reading::made_read, rapid_forms::specs::Reading::seq_read, rapid_forms::specs::Reading::then_read))]
pub fn exprs<'a>(
    p: &Parser<'_, 'a>,
    at: usize,
    left: u32,
) -> Result<(Vec<RawExpr<'a>>, usize), SyntaxFault>
    ensures { Gives p.now.tokens view_exprs result (exprs_read (expr_of_read (inside_read left)) (rest_from p.now.tokens at)) }
{
    let (first, after) = expr(p, at, left)?;
    let mut list = Vec::with_capacity(p.alloc, 1)?;
    list.push(first)?;
    let mut next = after;
    while p.tokens.sees(next, &[Sign::Comma]) {
        let (value, after) = more_expr(p, next, left)?;
        list.push(value)?;
        next = after;
    }
    Ok((list, next))
}

/// A comma and the expression after it.
#[cycle(expr)]
#[tactic(auto, unfolding(rapid_forms::specs::Reading::made_read, rapid_forms::specs::Reading::seq_read, rapid_forms::specs::Reading::then_read))]
fn more_expr<'a>(
    p: &Parser<'_, 'a>,
    at: usize,
    left: u32,
) -> Result<(RawExpr<'a>, usize), SyntaxFault>
    ensures { Gives p.now.tokens view_expr result (made_read behind (seq_read (mark_read Sign.Comma) (expr_of_read (inside_read left))) (rest_from p.now.tokens at)) }
{
    let (_comma, next) = p.tokens.take(at, &[Sign::Comma])?;
    expr(p, next, left)
}
