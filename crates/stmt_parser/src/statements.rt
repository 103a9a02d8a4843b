//! Lists of statements.

ghost use Rattle.raw_trees.specs.Views.{view_list, view_stmt};
ghost use Rattle.rapid_forms.specs.Reading.{Gives, rest_from};
ghost use Rattle.stmt_parser.specs.Reads.{items_read, list_read, stmt_read};

use crate::blocks::{choice, choice_or_one, for_loop, while_loop};
use crate::named::named;
use crate::simple::worded;
use rapid_forms::{Parser, Sign, SyntaxFault, is_seen};
use raw_trees::RawStmt;

static STMT_SIGNS: [Sign; 12] = [
    Sign::Name,
    Sign::If,
    Sign::For,
    Sign::While,
    Sign::Test,
    Sign::Goto,
    Sign::Return,
    Sign::Exit,
    Sign::Raise,
    Sign::Retry,
    Sign::TryNext,
    Sign::Connect,
];

/// A list of statements, and the number of the token after it. A nonempty list opens one of `left` levels.
#[cycle(stmt)]
#[tactic(auto, using(crate::proofs::Lists::list_none, crate::proofs::Lists::list_opens), unfolding(crate::specs::Reads::list_read, rapid_forms::specs::Reading::made_read, rapid_forms::specs::Reading::optional_read, rapid_forms::specs::Reading::then_read, rapid_forms::specs::Reading::nothing_read))]
pub fn list<'a>(
    p: &Parser<'_, 'a>,
    at: usize,
    left: u32,
) -> Result<(Vec<RawStmt<'a>>, usize), SyntaxFault>
    ensures { Gives p.now.tokens view_list result (list_read left (rest_from p.now.tokens at)) }
{
    if !p.tokens.sees(at, &STMT_SIGNS) {
        return Ok((Vec::new(p.alloc), at));
    }
    if left == 0 {
        return Err(p.tokens.no_level(at, &STMT_SIGNS));
    }
    items(p, at, left - 1)
}

/// The statements of a list whose level is open.
#[cycle(stmt)]
pub(crate) fn items<'a>(
    p: &Parser<'_, 'a>,
    at: usize,
    left: u32,
) -> Result<(Vec<RawStmt<'a>>, usize), SyntaxFault>
    ensures { Gives p.now.tokens view_list result (items_read left (rest_from p.now.tokens at)) }
{
    let mut list = Vec::with_capacity(p.alloc, 1)?;
    let mut next = at;
    while p.tokens.sees(next, &STMT_SIGNS) {
        let (stmt, after) = stmt(p, next, left)?;
        list.push(stmt)?;
        next = after;
    }
    Ok((list, next))
}

/// A statement.
#[cycle(stmt)]
#[tactic(auto, unfolding(crate::specs::Reads::stmt_read, crate::specs::Reads::stmt_of_read, rapid_forms::specs::Reading::either_read, rapid_forms::specs::Signs::begins_with))]
fn stmt<'a>(p: &Parser<'_, 'a>, at: usize, left: u32) -> Result<(RawStmt<'a>, usize), SyntaxFault>
    ensures { Gives p.now.tokens view_stmt result (stmt_read left (rest_from p.now.tokens at)) }
{
    let sign = p.tokens.sign(at);
    if is_seen(sign, Sign::Name) {
        return named(p, at, left);
    }
    if is_seen(sign, Sign::If) {
        return choice_or_one(p, at, left);
    }
    if is_seen(sign, Sign::For) {
        return for_loop(p, at, left);
    }
    if is_seen(sign, Sign::While) {
        return while_loop(p, at, left);
    }
    if is_seen(sign, Sign::Test) {
        return choice(p, at, left);
    }
    worded(p, at, left)
}
