//! Operands without operators: literals, groups, aggregates, calls and places.

ghost use Rattle.std.specs.Prelude.{map, option_map, ◌∷◌, []};
ghost use Rattle.raw_trees.specs.Views.{view_expr, view_name};
ghost use Rattle.rapid_forms.specs.Reading.{Gives, made_read, many_read, one_read, optional_read, rest_from};
ghost use Rattle.expr_parser.specs.Grammar.{number_tree, quoted_tree, truth_tree};
ghost use Rattle.expr_parser.specs.Parts.{view_parts};
ghost use Rattle.expr_parser.specs.Reads.{inside_read, mark_read, name_read, named_read, part_read, parts_read, primary_read};

use crate::args::call;
use crate::levels::{aggregate, group, index};
use crate::operators::{is_true, is_truth};
use rapid_forms::{Parser, Sign, SyntaxFault, is_seen};
use raw_trees::{RawExpr, RawName, RawPlace};

/// The name that token `at` is, and the number of the next token.
#[tactic(auto, unfolding(crate::specs::Reads::name_read, rapid_forms::specs::Reading::made_read, rapid_forms::specs::Reading::then_read))]
pub fn name<'a>(p: &Parser<'_, 'a>, at: usize) -> Result<(RawName<'a>, usize), SyntaxFault>
    ensures { Gives p.now.tokens view_name result (name_read (rest_from p.now.tokens at)) }
{
    let (token, next) = p.tokens.take(at, &[Sign::Name])?;
    let name = RawName {
        text: token.text,
        at: token.at,
    };
    Ok((name, next))
}

/// An operand without operators.
#[cycle(expr)]
#[tactic(auto, unfolding(crate::specs::Reads::primary_read, rapid_forms::specs::Reading::either_read, rapid_forms::specs::Signs::begins_with))]
pub(crate) fn primary<'a>(
    p: &Parser<'_, 'a>,
    at: usize,
    left: u32,
) -> Result<(RawExpr<'a>, usize), SyntaxFault>
    ensures { Gives p.now.tokens view_expr result (primary_read (inside_read left) (rest_from p.now.tokens at)) }
{
    let sign = p.tokens.sign(at);
    if is_seen(sign, Sign::Number) {
        return number(p, at);
    }
    if is_seen(sign, Sign::Quoted) {
        return quoted(p, at);
    }
    if is_truth(sign) {
        return truth(p, at);
    }
    if is_seen(sign, Sign::OpenParenthesis) {
        return group(p, at, left);
    }
    if is_seen(sign, Sign::OpenBracket) {
        return aggregate(p, at, left);
    }
    named(p, at, left)
}

#[tactic(auto, unfolding(rapid_forms::specs::Reading::made_read, rapid_forms::specs::Reading::then_read))]
fn number<'a>(p: &Parser<'_, 'a>, at: usize) -> Result<(RawExpr<'a>, usize), SyntaxFault>
    ensures { Gives p.now.tokens view_expr result (made_read number_tree (mark_read Sign.Number) (rest_from p.now.tokens at)) }
{
    let (token, next) = p.tokens.take(at, &[Sign::Number])?;
    Ok((RawExpr::number(token.at, token.text), next))
}

#[tactic(auto, unfolding(rapid_forms::specs::Reading::made_read, rapid_forms::specs::Reading::then_read))]
fn quoted<'a>(p: &Parser<'_, 'a>, at: usize) -> Result<(RawExpr<'a>, usize), SyntaxFault>
    ensures { Gives p.now.tokens view_expr result (made_read quoted_tree (mark_read Sign.Quoted) (rest_from p.now.tokens at)) }
{
    let (token, next) = p.tokens.take(at, &[Sign::Quoted])?;
    Ok((RawExpr::text(token.at, token.text), next))
}

#[tactic(auto, unfolding(rapid_forms::specs::Reading::made_read, rapid_forms::specs::Reading::then_read))]
fn truth<'a>(p: &Parser<'_, 'a>, at: usize) -> Result<(RawExpr<'a>, usize), SyntaxFault>
    ensures { Gives p.now.tokens view_expr result (made_read truth_tree (one_read (Sign.True ∷ Sign.False ∷ [])) (rest_from p.now.tokens at)) }
{
    let (token, next) = p.tokens.take(at, &[Sign::True, Sign::False])?;
    Ok((RawExpr::truth(token.at, is_true(&token)), next))
}

/// A name and what follows it: arguments in parentheses, or what makes it a place.
#[cycle(expr)]
#[tactic(auto, using(crate::proofs::Bare::no_parts), unfolding(crate::specs::Reads::named_read, rapid_forms::specs::Reading::made_read, rapid_forms::specs::Reading::seq_read, rapid_forms::specs::Reading::either_read, rapid_forms::specs::Reading::then_read))]
fn named<'a>(p: &Parser<'_, 'a>, at: usize, left: u32) -> Result<(RawExpr<'a>, usize), SyntaxFault>
    ensures { Gives p.now.tokens view_expr result (named_read (inside_read left) (rest_from p.now.tokens at)) }
{
    let (name, next) = name(p, at)?;
    if p.tokens.sees(next, &[Sign::OpenParenthesis]) {
        let (args, end) = call(p, next, left)?;
        return Ok((RawExpr::invoke(p.tokens.byte_at(at), name, args), end));
    }
    if !p.tokens.sees(next, &[Sign::OpenBrace, Sign::Dot]) {
        let place = RawPlace::new(p.alloc, name, None, Vec::new(p.alloc))?;
        return Ok((RawExpr::place(p.tokens.byte_at(at), place), next));
    }
    let ((index, parts), end) = place_parts(p, next, left)?;
    let place = RawPlace::new(p.alloc, name, index, parts)?;
    Ok((RawExpr::place(p.tokens.byte_at(at), place), end))
}

/// What follows a name in a place, within `left` levels: an optional index, and components. Also the number of the
/// token after them.
#[cycle(expr)]
#[tactic(auto, unfolding(crate::specs::Reads::parts_read, rapid_forms::specs::Reading::seq_read, rapid_forms::specs::Reading::then_read))]
pub fn place_parts<'a>(
    p: &Parser<'_, 'a>,
    at: usize,
    left: u32,
) -> Result<((Option<RawExpr<'a>>, Vec<RawName<'a>>), usize), SyntaxFault>
    ensures { Gives p.now.tokens view_parts result (parts_read (inside_read left) (rest_from p.now.tokens at)) }
{
    let (index, next) = index_if_any(p, at, left)?;
    let (parts, end) = parts(p, next)?;
    Ok(((index, parts), end))
}

/// An optional index.
#[cycle(expr)]
#[tactic(auto, unfolding(rapid_forms::specs::Reading::optional_read, rapid_forms::specs::Reading::then_read))]
fn index_if_any<'a>(
    p: &Parser<'_, 'a>,
    at: usize,
    left: u32,
) -> Result<(Option<RawExpr<'a>>, usize), SyntaxFault>
    ensures { Gives p.now.tokens (option_map view_expr) result (optional_read (Sign.OpenBrace ∷ []) (inside_read left).index (rest_from p.now.tokens at)) }
{
    if !p.tokens.sees(at, &[Sign::OpenBrace]) {
        return Ok((None, at));
    }
    let (value, next) = index(p, at, left)?;
    Ok((Some(value), next))
}

/// Components, one after the other.
fn parts<'a>(p: &Parser<'_, 'a>, at: usize) -> Result<(Vec<RawName<'a>>, usize), SyntaxFault>
    ensures { Gives p.now.tokens (λ v. map view_name v.items) result (many_read (Sign.Dot ∷ []) part_read (rest_from p.now.tokens at)) }
{
    let mut list = Vec::new(p.alloc);
    let mut next = at;
    while p.tokens.sees(next, &[Sign::Dot]) {
        let (part, after) = part(p, next)?;
        list.push(part)?;
        next = after;
    }
    Ok((list, next))
}

/// A component after a dot.
#[tactic(auto, unfolding(crate::specs::Reads::part_read, rapid_forms::specs::Reading::made_read, rapid_forms::specs::Reading::seq_read, rapid_forms::specs::Reading::then_read))]
fn part<'a>(p: &Parser<'_, 'a>, at: usize) -> Result<(RawName<'a>, usize), SyntaxFault>
    ensures { Gives p.now.tokens view_name result (part_read (rest_from p.now.tokens at)) }
{
    let (_dot, next) = p.tokens.take(at, &[Sign::Dot])?;
    name(p, next)
}
