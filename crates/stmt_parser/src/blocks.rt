//! Statements with lists.

ghost use Rattle.std.specs.Prelude.{◌∷◌, map, option_map, Ok};
ghost use Rattle.rapid_lexer.specs.Tokens.{view};
ghost use Rattle.raw_trees.specs.Views.{view_arm, view_case, view_expr, view_list, view_stmt};
ghost use Rattle.rapid_forms.specs.Reading.{Gives, rest_from, then_read};
ghost use Rattle.expr_parser.specs.Reads.{expr_of_read, inside_read};
ghost use Rattle.stmt_parser.specs.Grammar.{arm_tree, if_tree};
ghost use Rattle.stmt_parser.specs.Reads.{arm_read, arms_read, behind_read, branched_read, case_read, cases_read, default_read, for_read, if_read, list_read, test_read, tested_read, while_read};

use crate::exprs::expr_behind;
use crate::simple::simple;
use crate::statements::list;
use expr_parser::{expr, exprs, name};
use rapid_forms::{Parser, Sign, SyntaxFault};
use rapid_lexer::Token;
use raw_trees::{RawBounds, RawExpr, RawStmt};

/// IF with lists, or with one statement.
#[cycle(stmt)]
#[tactic(auto, using(rapid_forms::proofs::Placed::one_placed), unfolding(crate::specs::Reads::tested_read, rapid_forms::specs::Reading::made_read, rapid_forms::specs::Reading::seq_read, rapid_forms::specs::Reading::then_read, rapid_forms::specs::Reading::either_read))]
pub(crate) fn choice_or_one<'a>(
    p: &Parser<'_, 'a>,
    at: usize,
    left: u32,
) -> Result<(RawStmt<'a>, usize), SyntaxFault>
    ensures { Gives p.now.tokens view_stmt result (tested_read (inside_read left) (list_read left) (rest_from p.now.tokens at)) }
{
    let (word, first) = p.tokens.take(at, &[Sign::If])?;
    let (test, next) = expr(p, first, left)?;
    if p.tokens.sees(next, &[Sign::Then]) {
        return branches(p, word, test, next, left);
    }
    let (then, end) = simple(p, next, left)?;
    let stmt = RawStmt::choice_of_one(p.alloc, word.at, test, then)?;
    Ok((stmt, end))
}

/// What follows the first test of an IF with lists.
#[cycle(stmt)]
#[tactic(auto, unfolding(crate::specs::Reads::branched_read, rapid_forms::specs::Reading::seq_read, rapid_forms::specs::Reading::then_read))]
fn branches<'a>(
    p: &Parser<'_, 'a>,
    word: Token<'a>,
    test: RawExpr<'a>,
    at: usize,
    left: u32,
) -> Result<(RawStmt<'a>, usize), SyntaxFault>
    ensures { Gives p.now.tokens view_stmt result (then_read (branched_read (inside_read left) (list_read left) (rest_from p.now.tokens at)) λ x rest. Ok (if_tree word.entry.at (view word.entry, (arm_tree word.entry.at (view_expr test.entry, x.0), x.1)), rest)) }
{
    let (_then, body) = p.tokens.take(at, &[Sign::Then])?;
    let (first, after) = list(p, body, left)?;
    let (arms, next) = arms(p, (test, first), after, left)?;
    let (other, last) = list_if_any(p, next, left, Sign::Else)?;
    let (_end, end) = p.tokens.take(last, &[Sign::EndIf])?;
    Ok((RawStmt::choice(word.at, arms, other), end))
}

/// The first arm of an IF, and each ELSEIF after it.
#[cycle(stmt)]
#[tactic(auto, unfolding(crate::specs::Reads::arms_read, rapid_forms::specs::Reading::then_read))]
fn arms<'a>(
    p: &Parser<'_, 'a>,
    first: (RawExpr<'a>, Vec<RawStmt<'a>>),
    at: usize,
    left: u32,
) -> Result<(Vec<(RawExpr<'a>, Vec<RawStmt<'a>>)>, usize), SyntaxFault>
    ensures { Gives p.now.tokens (λ v. map view_arm v.items) result (then_read (arms_read (inside_read left) (list_read left) (rest_from p.now.tokens at)) λ xs rest. Ok (view_arm first.entry ∷ xs, rest)) }
{
    let mut list = Vec::with_capacity(p.alloc, 1)?;
    list.push(first)?;
    let mut next = at;
    while p.tokens.sees(next, &[Sign::ElseIf]) {
        let (arm, after) = arm(p, next, left)?;
        list.push(arm)?;
        next = after;
    }
    Ok((list, next))
}

/// ELSEIF with its test and its list.
#[cycle(stmt)]
#[tactic(auto, unfolding(crate::specs::Reads::behind_read, crate::specs::Reads::arm_read, rapid_forms::specs::Reading::made_read, rapid_forms::specs::Reading::seq_read, rapid_forms::specs::Reading::then_read))]
fn arm<'a>(
    p: &Parser<'_, 'a>,
    at: usize,
    left: u32,
) -> Result<((RawExpr<'a>, Vec<RawStmt<'a>>), usize), SyntaxFault>
    ensures { Gives p.now.tokens view_arm result (behind_read Sign.ElseIf (arm_read (inside_read left) (list_read left)) (rest_from p.now.tokens at)) }
{
    let (test, next) = expr_behind(p, at, left, Sign::ElseIf)?;
    let (list, end) = list_behind(p, next, left, Sign::Then)?;
    Ok(((test, list), end))
}

/// A word or mark and the list after it.
#[cycle(stmt)]
#[tactic(auto, unfolding(crate::specs::Reads::behind_read, rapid_forms::specs::Reading::made_read, rapid_forms::specs::Reading::seq_read, rapid_forms::specs::Reading::then_read))]
fn list_behind<'a>(
    p: &Parser<'_, 'a>,
    at: usize,
    left: u32,
    sign: Sign,
) -> Result<(Vec<RawStmt<'a>>, usize), SyntaxFault>
    ensures { Gives p.now.tokens view_list result (behind_read sign (list_read left) (rest_from p.now.tokens at)) }
{
    let (_word, next) = p.tokens.take(at, &[sign])?;
    list(p, next, left)
}

/// The list after a word, if the word is there.
#[cycle(stmt)]
#[tactic(auto, unfolding(crate::specs::Reads::if_read, rapid_forms::specs::Reading::optional_read, rapid_forms::specs::Reading::then_read))]
fn list_if_any<'a>(
    p: &Parser<'_, 'a>,
    at: usize,
    left: u32,
    sign: Sign,
) -> Result<(Option<Vec<RawStmt<'a>>>, usize), SyntaxFault>
    ensures { Gives p.now.tokens (option_map view_list) result (if_read sign (list_read left) (rest_from p.now.tokens at)) }
{
    if !p.tokens.sees(at, &[sign]) {
        return Ok((None, at));
    }
    let (list, next) = list_behind(p, at, left, sign)?;
    Ok((Some(list), next))
}

/// FOR.
#[cycle(stmt)]
#[tactic(auto, using(rapid_forms::proofs::Placed::one_placed), unfolding(crate::specs::Reads::for_read, rapid_forms::specs::Reading::made_read, rapid_forms::specs::Reading::seq_read, rapid_forms::specs::Reading::then_read))]
pub(crate) fn for_loop<'a>(
    p: &Parser<'_, 'a>,
    at: usize,
    left: u32,
) -> Result<(RawStmt<'a>, usize), SyntaxFault>
    ensures { Gives p.now.tokens view_stmt result (for_read (inside_read left) (list_read left) (rest_from p.now.tokens at)) }
{
    let (word, next) = p.tokens.take(at, &[Sign::For])?;
    let (name, from) = name(p, next)?;
    let (first, to) = expr_behind(p, from, left, Sign::From)?;
    let (last, by) = expr_behind(p, to, left, Sign::To)?;
    let (step, body) = step_if_any(p, by, left)?;
    let bounds = RawBounds { first, last, step };
    let (list, close) = list_behind(p, body, left, Sign::Do)?;
    let (_end, end) = p.tokens.take(close, &[Sign::EndFor])?;
    let stmt = RawStmt::for_loop(p.alloc, word.at, name, bounds, list)?;
    Ok((stmt, end))
}

/// The step of a FOR, if there is one.
#[tactic(auto, unfolding(crate::specs::Reads::if_read, rapid_forms::specs::Reading::optional_read, rapid_forms::specs::Reading::then_read))]
fn step_if_any<'a>(
    p: &Parser<'_, 'a>,
    at: usize,
    left: u32,
) -> Result<(Option<RawExpr<'a>>, usize), SyntaxFault>
    ensures { Gives p.now.tokens (option_map view_expr) result (if_read Sign.Step (expr_of_read (inside_read left)) (rest_from p.now.tokens at)) }
{
    if !p.tokens.sees(at, &[Sign::Step]) {
        return Ok((None, at));
    }
    let (step, next) = expr_behind(p, at, left, Sign::Step)?;
    Ok((Some(step), next))
}

/// WHILE.
#[cycle(stmt)]
#[tactic(auto, using(rapid_forms::proofs::Placed::one_placed), unfolding(crate::specs::Reads::while_read, rapid_forms::specs::Reading::made_read, rapid_forms::specs::Reading::seq_read, rapid_forms::specs::Reading::then_read))]
pub(crate) fn while_loop<'a>(
    p: &Parser<'_, 'a>,
    at: usize,
    left: u32,
) -> Result<(RawStmt<'a>, usize), SyntaxFault>
    ensures { Gives p.now.tokens view_stmt result (while_read (inside_read left) (list_read left) (rest_from p.now.tokens at)) }
{
    let (word, next) = p.tokens.take(at, &[Sign::While])?;
    let (test, body) = expr(p, next, left)?;
    let (list, close) = list_behind(p, body, left, Sign::Do)?;
    let (_end, end) = p.tokens.take(close, &[Sign::EndWhile])?;
    Ok((RawStmt::while_loop(word.at, test, list), end))
}

/// TEST.
#[cycle(stmt)]
#[tactic(auto, using(rapid_forms::proofs::Placed::one_placed), unfolding(crate::specs::Reads::test_read, rapid_forms::specs::Reading::made_read, rapid_forms::specs::Reading::seq_read, rapid_forms::specs::Reading::then_read))]
pub(crate) fn choice<'a>(
    p: &Parser<'_, 'a>,
    at: usize,
    left: u32,
) -> Result<(RawStmt<'a>, usize), SyntaxFault>
    ensures { Gives p.now.tokens view_stmt result (test_read (inside_read left) (list_read left) (rest_from p.now.tokens at)) }
{
    let (word, first) = p.tokens.take(at, &[Sign::Test])?;
    let (value, next) = expr(p, first, left)?;
    let (cases, after) = cases(p, next, left)?;
    let (other, last) = default_if_any(p, after, left)?;
    let (_end, end) = p.tokens.take(last, &[Sign::EndTest])?;
    Ok((RawStmt::test(word.at, value, cases, other), end))
}

/// Each CASE.
#[cycle(stmt)]
#[tactic(auto, unfolding(crate::specs::Reads::cases_read))]
fn cases<'a>(
    p: &Parser<'_, 'a>,
    at: usize,
    left: u32,
) -> Result<(Vec<(Vec<RawExpr<'a>>, Vec<RawStmt<'a>>)>, usize), SyntaxFault>
    ensures { Gives p.now.tokens (λ v. map view_case v.items) result (cases_read (inside_read left) (list_read left) (rest_from p.now.tokens at)) }
{
    let mut list = Vec::new(p.alloc);
    let mut next = at;
    while p.tokens.sees(next, &[Sign::Case]) {
        let (case, after) = case(p, next, left)?;
        list.push(case)?;
        next = after;
    }
    Ok((list, next))
}

/// CASE with its values and its list.
#[cycle(stmt)]
#[tactic(auto, unfolding(crate::specs::Reads::behind_read, crate::specs::Reads::case_read, rapid_forms::specs::Reading::made_read, rapid_forms::specs::Reading::seq_read, rapid_forms::specs::Reading::then_read))]
fn case<'a>(
    p: &Parser<'_, 'a>,
    at: usize,
    left: u32,
) -> Result<((Vec<RawExpr<'a>>, Vec<RawStmt<'a>>), usize), SyntaxFault>
    ensures { Gives p.now.tokens view_case result (behind_read Sign.Case (case_read (inside_read left) (list_read left)) (rest_from p.now.tokens at)) }
{
    let (_word, first) = p.tokens.take(at, &[Sign::Case])?;
    let (values, next) = exprs(p, first, left)?;
    let (list, end) = list_behind(p, next, left, Sign::Colon)?;
    Ok(((values, list), end))
}

/// DEFAULT with its list, if there is one.
#[cycle(stmt)]
#[tactic(auto, unfolding(crate::specs::Reads::default_read, crate::specs::Reads::if_read, crate::specs::Reads::behind_read, rapid_forms::specs::Reading::optional_read, rapid_forms::specs::Reading::made_read, rapid_forms::specs::Reading::seq_read, rapid_forms::specs::Reading::then_read))]
fn default_if_any<'a>(
    p: &Parser<'_, 'a>,
    at: usize,
    left: u32,
) -> Result<(Option<Vec<RawStmt<'a>>>, usize), SyntaxFault>
    ensures { Gives p.now.tokens (option_map view_list) result (default_read (list_read left) (rest_from p.now.tokens at)) }
{
    if !p.tokens.sees(at, &[Sign::Default]) {
        return Ok((None, at));
    }
    let (_word, next) = p.tokens.take(at, &[Sign::Default])?;
    let (list, end) = list_behind(p, next, left, Sign::Colon)?;
    Ok((Some(list), end))
}
