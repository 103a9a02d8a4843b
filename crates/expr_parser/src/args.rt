//! Arguments.

ghost use Rattle.std.specs.Prelude.{option_map, ◌∷◌, []};
ghost use Rattle.raw_trees.specs.Views.{view_arg, view_expr};
ghost use Rattle.rapid_forms.specs.Reading.{Gives, made_read, optional_read, rest_from};
ghost use Rattle.expr_parser.specs.Grammar.{none_or};
ghost use Rattle.expr_parser.specs.Parts.{view_args};
ghost use Rattle.expr_parser.specs.Reads.{arg_read, arg_signs, args_read, expr_of_read, inside_read, later_read, option_read, value_read};

use crate::chains::expr;
use crate::primary::name;
use rapid_forms::{Parser, Sign, SyntaxFault};
use raw_trees::{RawArg, RawExpr};

static ARG_SIGNS: [Sign; 11] = [
    Sign::Backslash,
    Sign::Not,
    Sign::Plus,
    Sign::Minus,
    Sign::Number,
    Sign::Quoted,
    Sign::True,
    Sign::False,
    Sign::OpenParenthesis,
    Sign::OpenBracket,
    Sign::Name,
];

/// Parenthesized arguments, possibly none.
#[cycle(expr)]
#[tactic(auto, unfolding(crate::specs::Reads::inside_read, crate::specs::Reads::call_read, rapid_forms::specs::Reading::seq_read, rapid_forms::specs::Reading::made_read, rapid_forms::specs::Reading::then_read, rapid_forms::specs::Reading::nothing_read))]
pub(crate) fn call<'a>(
    p: &Parser<'_, 'a>,
    at: usize,
    left: u32,
) -> Result<(Vec<RawArg<'a>>, usize), SyntaxFault>
    ensures { Gives p.now.tokens view_args result ((inside_read left).call (rest_from p.now.tokens at)) }
{
    if left == 0 {
        return Err(p.tokens.no_level(at, &[Sign::OpenParenthesis]));
    }
    let (_open, first) = p.tokens.take(at, &[Sign::OpenParenthesis])?;
    let (args, next) = args_if_any(p, first, left - 1)?;
    let (_close, end) = p.tokens.take(next, &[Sign::CloseParenthesis])?;
    Ok((args, end))
}

/// Arguments, if any, within `left` levels, and the number of the token after them.
#[cycle(expr)]
#[tactic(auto, unfolding(rapid_forms::specs::Reading::made_read, rapid_forms::specs::Reading::optional_read, rapid_forms::specs::Reading::then_read))]
pub fn args_if_any<'a>(
    p: &Parser<'_, 'a>,
    at: usize,
    left: u32,
) -> Result<(Vec<RawArg<'a>>, usize), SyntaxFault>
    ensures { Gives p.now.tokens view_args result (made_read none_or (optional_read arg_signs (inside_read left).args) (rest_from p.now.tokens at)) }
{
    if p.tokens.sees(at, &ARG_SIGNS) {
        args(p, at, left)
    } else {
        Ok((Vec::new(p.alloc), at))
    }
}

/// One or more arguments.
#[cycle(expr)]
#[tactic(auto, unfolding(crate::specs::Reads::inside_read, rapid_forms::specs::Reading::nothing_read))]
fn args<'a>(
    p: &Parser<'_, 'a>,
    at: usize,
    left: u32,
) -> Result<(Vec<RawArg<'a>>, usize), SyntaxFault>
    ensures { Gives p.now.tokens view_args result ((inside_read left).args (rest_from p.now.tokens at)) }
{
    if left == 0 {
        return Err(p.tokens.no_level(at, &ARG_SIGNS));
    }
    some_args(p, at, left - 1)
}

#[cycle(expr)]
#[tactic(auto, unfolding(crate::specs::Reads::args_read, rapid_forms::specs::Reading::made_read, rapid_forms::specs::Reading::seq_read, rapid_forms::specs::Reading::then_read))]
fn some_args<'a>(
    p: &Parser<'_, 'a>,
    at: usize,
    left: u32,
) -> Result<(Vec<RawArg<'a>>, usize), SyntaxFault>
    ensures { Gives p.now.tokens view_args result (args_read (expr_of_read (inside_read left)) (rest_from p.now.tokens at)) }
{
    let (first, after) = arg(p, at, left)?;
    let mut list = Vec::with_capacity(p.alloc, 1)?;
    list.push(first)?;
    let mut next = after;
    while p.tokens.sees(next, &[Sign::Comma, Sign::Backslash]) {
        let (more, after) = later_arg(p, next, left)?;
        list.push(more)?;
        next = after;
    }
    Ok((list, next))
}

/// A further argument: after a comma any, otherwise an option.
#[cycle(expr)]
#[tactic(auto, unfolding(crate::specs::Reads::later_read, rapid_forms::specs::Reading::either_read, rapid_forms::specs::Reading::made_read, rapid_forms::specs::Reading::seq_read, rapid_forms::specs::Reading::then_read))]
fn later_arg<'a>(
    p: &Parser<'_, 'a>,
    at: usize,
    left: u32,
) -> Result<(RawArg<'a>, usize), SyntaxFault>
    ensures { Gives p.now.tokens view_arg result (later_read (expr_of_read (inside_read left)) (rest_from p.now.tokens at)) }
{
    if !p.tokens.sees(at, &[Sign::Comma]) {
        return option(p, at, left);
    }
    let (_comma, next) = p.tokens.take(at, &[Sign::Comma])?;
    arg(p, next, left)
}

/// A value or an option.
#[cycle(expr)]
#[tactic(auto, unfolding(crate::specs::Reads::arg_read, crate::specs::Reads::needed_read, rapid_forms::specs::Reading::either_read, rapid_forms::specs::Reading::made_read, rapid_forms::specs::Reading::then_read))]
fn arg<'a>(p: &Parser<'_, 'a>, at: usize, left: u32) -> Result<(RawArg<'a>, usize), SyntaxFault>
    ensures { Gives p.now.tokens view_arg result (arg_read (expr_of_read (inside_read left)) (rest_from p.now.tokens at)) }
{
    if p.tokens.sees(at, &[Sign::Backslash]) {
        return option(p, at, left);
    }
    let (value, next) = expr(p, at, left)?;
    Ok((RawArg::needed(value), next))
}

/// An option.
#[cycle(expr)]
#[tactic(auto, unfolding(crate::specs::Reads::option_read, rapid_forms::specs::Reading::made_read, rapid_forms::specs::Reading::seq_read, rapid_forms::specs::Reading::then_read))]
fn option<'a>(p: &Parser<'_, 'a>, at: usize, left: u32) -> Result<(RawArg<'a>, usize), SyntaxFault>
    ensures { Gives p.now.tokens view_arg result (option_read (expr_of_read (inside_read left)) (rest_from p.now.tokens at)) }
{
    let (_backslash, first) = p.tokens.take(at, &[Sign::Backslash])?;
    let (name, next) = name(p, first)?;
    let (value, end) = value_if_any(p, next, left)?;
    Ok((RawArg::option(p.tokens.byte_at(at), name, value), end))
}

/// The value of an option, if it has one.
#[cycle(expr)]
#[tactic(auto, unfolding(rapid_forms::specs::Reading::optional_read, rapid_forms::specs::Reading::then_read))]
fn value_if_any<'a>(
    p: &Parser<'_, 'a>,
    at: usize,
    left: u32,
) -> Result<(Option<RawExpr<'a>>, usize), SyntaxFault>
    ensures { Gives p.now.tokens (option_map view_expr) result (optional_read (Sign.Assign ∷ []) (value_read (expr_of_read (inside_read left))) (rest_from p.now.tokens at)) }
{
    if !p.tokens.sees(at, &[Sign::Assign]) {
        return Ok((None, at));
    }
    let (value, next) = value(p, at, left)?;
    Ok((Some(value), next))
}

#[cycle(expr)]
#[tactic(auto, unfolding(crate::specs::Reads::value_read, rapid_forms::specs::Reading::made_read, rapid_forms::specs::Reading::seq_read, rapid_forms::specs::Reading::then_read))]
fn value<'a>(p: &Parser<'_, 'a>, at: usize, left: u32) -> Result<(RawExpr<'a>, usize), SyntaxFault>
    ensures { Gives p.now.tokens view_expr result (value_read (expr_of_read (inside_read left)) (rest_from p.now.tokens at)) }
{
    let (_assign, next) = p.tokens.take(at, &[Sign::Assign])?;
    expr(p, next, left)
}
