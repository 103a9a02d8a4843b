//! Statements without lists.

ghost use Rattle.std.specs.Prelude.{option_map};
ghost use Rattle.raw_trees.specs.Views.{view_expr, view_place, view_stmt};
ghost use Rattle.rapid_forms.specs.Reading.{Gives, rest_from};
ghost use Rattle.expr_parser.specs.Reads.{inside_read, place_read};
ghost use Rattle.stmt_parser.specs.Reads.{connect_read, exit_read, goto_read, raise_read, retry_read, return_read, simple_read, try_next_read, value_read, worded_read};

use crate::named::named_simple;
use expr_parser::{expr, name, place_parts};
use rapid_forms::{Parser, Sign, SyntaxFault, is_seen};
use raw_trees::{RawExpr, RawPlace, RawStmt};

/// A statement that has no list and is not a label.
#[tactic(auto, unfolding(crate::specs::Reads::simple_read, rapid_forms::specs::Reading::either_read))]
pub(crate) fn simple<'a>(
    p: &Parser<'_, 'a>,
    at: usize,
    left: u32,
) -> Result<(RawStmt<'a>, usize), SyntaxFault>
    ensures { Gives p.now.tokens view_stmt result (simple_read (inside_read left) (rest_from p.now.tokens at)) }
{
    if p.tokens.sees(at, &[Sign::Name]) {
        return named_simple(p, at, left);
    }
    worded(p, at, left)
}

/// A statement without lists that starts with a reserved word.
#[tactic(auto, unfolding(crate::specs::Reads::worded_read, rapid_forms::specs::Reading::either_read, rapid_forms::specs::Signs::begins_with))]
pub(crate) fn worded<'a>(
    p: &Parser<'_, 'a>,
    at: usize,
    left: u32,
) -> Result<(RawStmt<'a>, usize), SyntaxFault>
    ensures { Gives p.now.tokens view_stmt result (worded_read (inside_read left) (rest_from p.now.tokens at)) }
{
    let sign = p.tokens.sign(at);
    if is_seen(sign, Sign::Goto) {
        return goto(p, at);
    }
    if is_seen(sign, Sign::Return) {
        return returns(p, at, left);
    }
    if is_seen(sign, Sign::Exit) {
        return exit(p, at);
    }
    if is_seen(sign, Sign::Raise) {
        return raise(p, at, left);
    }
    if is_seen(sign, Sign::Retry) {
        return retry(p, at);
    }
    if is_seen(sign, Sign::TryNext) {
        return try_next(p, at);
    }
    connect(p, at, left)
}

#[tactic(auto, using(rapid_forms::proofs::Placed::one_placed), unfolding(crate::specs::Reads::goto_read, rapid_forms::specs::Reading::made_read, rapid_forms::specs::Reading::seq_read, rapid_forms::specs::Reading::then_read))]
fn goto<'a>(p: &Parser<'_, 'a>, at: usize) -> Result<(RawStmt<'a>, usize), SyntaxFault>
    ensures { Gives p.now.tokens view_stmt result (goto_read (rest_from p.now.tokens at)) }
{
    let (word, next) = p.tokens.take(at, &[Sign::Goto])?;
    let (name, last) = name(p, next)?;
    let (_semicolon, end) = p.tokens.take(last, &[Sign::Semicolon])?;
    Ok((RawStmt::goto(word.at, name), end))
}

#[tactic(auto, using(rapid_forms::proofs::Placed::one_placed), unfolding(crate::specs::Reads::return_read, rapid_forms::specs::Reading::made_read, rapid_forms::specs::Reading::seq_read, rapid_forms::specs::Reading::then_read))]
fn returns<'a>(
    p: &Parser<'_, 'a>,
    at: usize,
    left: u32,
) -> Result<(RawStmt<'a>, usize), SyntaxFault>
    ensures { Gives p.now.tokens view_stmt result (return_read (inside_read left) (rest_from p.now.tokens at)) }
{
    let (word, next) = p.tokens.take(at, &[Sign::Return])?;
    let (value, last) = value_if_any(p, next, left)?;
    let (_semicolon, end) = p.tokens.take(last, &[Sign::Semicolon])?;
    Ok((RawStmt::returns(word.at, value), end))
}

#[tactic(auto, using(rapid_forms::proofs::Placed::one_placed), unfolding(crate::specs::Reads::exit_read, rapid_forms::specs::Reading::made_read, rapid_forms::specs::Reading::seq_read, rapid_forms::specs::Reading::then_read))]
fn exit<'a>(p: &Parser<'_, 'a>, at: usize) -> Result<(RawStmt<'a>, usize), SyntaxFault>
    ensures { Gives p.now.tokens view_stmt result (exit_read (rest_from p.now.tokens at)) }
{
    let (word, last) = p.tokens.take(at, &[Sign::Exit])?;
    let (_semicolon, end) = p.tokens.take(last, &[Sign::Semicolon])?;
    Ok((RawStmt::exit(word.at), end))
}

#[tactic(auto, using(rapid_forms::proofs::Placed::one_placed), unfolding(crate::specs::Reads::raise_read, rapid_forms::specs::Reading::made_read, rapid_forms::specs::Reading::seq_read, rapid_forms::specs::Reading::then_read))]
fn raise<'a>(p: &Parser<'_, 'a>, at: usize, left: u32) -> Result<(RawStmt<'a>, usize), SyntaxFault>
    ensures { Gives p.now.tokens view_stmt result (raise_read (inside_read left) (rest_from p.now.tokens at)) }
{
    let (word, next) = p.tokens.take(at, &[Sign::Raise])?;
    let (value, last) = value_if_any(p, next, left)?;
    let (_semicolon, end) = p.tokens.take(last, &[Sign::Semicolon])?;
    Ok((RawStmt::raise(word.at, value), end))
}

#[tactic(auto, using(rapid_forms::proofs::Placed::one_placed), unfolding(crate::specs::Reads::retry_read, rapid_forms::specs::Reading::made_read, rapid_forms::specs::Reading::seq_read, rapid_forms::specs::Reading::then_read))]
fn retry<'a>(p: &Parser<'_, 'a>, at: usize) -> Result<(RawStmt<'a>, usize), SyntaxFault>
    ensures { Gives p.now.tokens view_stmt result (retry_read (rest_from p.now.tokens at)) }
{
    let (word, last) = p.tokens.take(at, &[Sign::Retry])?;
    let (_semicolon, end) = p.tokens.take(last, &[Sign::Semicolon])?;
    Ok((RawStmt::retry(word.at), end))
}

#[tactic(auto, using(rapid_forms::proofs::Placed::one_placed), unfolding(crate::specs::Reads::try_next_read, rapid_forms::specs::Reading::made_read, rapid_forms::specs::Reading::seq_read, rapid_forms::specs::Reading::then_read))]
fn try_next<'a>(p: &Parser<'_, 'a>, at: usize) -> Result<(RawStmt<'a>, usize), SyntaxFault>
    ensures { Gives p.now.tokens view_stmt result (try_next_read (rest_from p.now.tokens at)) }
{
    let (word, last) = p.tokens.take(at, &[Sign::TryNext])?;
    let (_semicolon, end) = p.tokens.take(last, &[Sign::Semicolon])?;
    Ok((RawStmt::try_next(word.at), end))
}

#[tactic(auto, using(rapid_forms::proofs::Placed::one_placed), unfolding(crate::specs::Reads::connect_read, rapid_forms::specs::Reading::made_read, rapid_forms::specs::Reading::seq_read, rapid_forms::specs::Reading::then_read))]
fn connect<'a>(
    p: &Parser<'_, 'a>,
    at: usize,
    left: u32,
) -> Result<(RawStmt<'a>, usize), SyntaxFault>
    ensures { Gives p.now.tokens view_stmt result (connect_read (inside_read left) (rest_from p.now.tokens at)) }
{
    let (word, first) = p.tokens.take(at, &[Sign::Connect])?;
    let (place, next) = place(p, first, left)?;
    let (_with, after) = p.tokens.take(next, &[Sign::With])?;
    let (trap, last) = name(p, after)?;
    let (_semicolon, end) = p.tokens.take(last, &[Sign::Semicolon])?;
    Ok((RawStmt::connect(word.at, place, trap), end))
}

#[tactic(auto, unfolding(expr_parser::specs::Reads::place_read, rapid_forms::specs::Reading::made_read, rapid_forms::specs::Reading::seq_read, rapid_forms::specs::Reading::then_read))]
fn place<'a>(p: &Parser<'_, 'a>, at: usize, left: u32) -> Result<(RawPlace<'a>, usize), SyntaxFault>
    ensures { Gives p.now.tokens view_place result (place_read (inside_read left) (rest_from p.now.tokens at)) }
{
    let (name, next) = name(p, at)?;
    let ((index, parts), end) = place_parts(p, next, left)?;
    let place = RawPlace::new(p.alloc, name, index, parts)?;
    Ok((place, end))
}

/// An optional value.
#[tactic(auto, unfolding(crate::specs::Reads::value_read, rapid_forms::specs::Reading::optional_read, rapid_forms::specs::Reading::then_read))]
fn value_if_any<'a>(
    p: &Parser<'_, 'a>,
    at: usize,
    left: u32,
) -> Result<(Option<RawExpr<'a>>, usize), SyntaxFault>
    ensures { Gives p.now.tokens (option_map view_expr) result (value_read (inside_read left) (rest_from p.now.tokens at)) }
{
    if !p.tokens.sees(at, &EXPR_SIGNS) {
        return Ok((None, at));
    }
    let (value, next) = expr(p, at, left)?;
    Ok((Some(value), next))
}

static EXPR_SIGNS: [Sign; 10] = [
    Sign::Not,
    Sign::Plus,
    Sign::Minus,
    Sign::Number,
    Sign::Quoted,
    Sign::True,
    Sign::False,
    Sign::OpenParenthesis,
    Sign::OpenBracket,
    Sign::Name,
];
