//! Statements that start with a name.

ghost use Rattle.std.specs.Prelude.{Ok};
ghost use Rattle.raw_trees.specs.Views.{view_name, view_stmt};
ghost use Rattle.rapid_forms.specs.Reading.{Gives, rest_from, then_read};
ghost use Rattle.expr_parser.specs.Parts.{view_parts};
ghost use Rattle.expr_parser.specs.Reads.{inside_read, mark_read, parts_read};
ghost use Rattle.stmt_parser.specs.Grammar.{call_tree, label_tree};
ghost use Rattle.stmt_parser.specs.Reads.{assigned_read, assigned_tree, behind_name_read, called_read, named_read, named_simple_read, named_simple_tree};

use expr_parser::{args_if_any, expr, name, place_parts};
use rapid_forms::{Parser, Sign, SyntaxFault};
use raw_trees::{RawExpr, RawName, RawPlace, RawStmt};

/// A label, an assignment or a call.
#[tactic(auto, using(crate::proofs::Begins::name_placed), unfolding(crate::specs::Reads::named_read, rapid_forms::specs::Reading::made_read, rapid_forms::specs::Reading::seq_read, rapid_forms::specs::Reading::then_read, rapid_forms::specs::Reading::either_read))]
pub(crate) fn named<'a>(
    p: &Parser<'_, 'a>,
    at: usize,
    left: u32,
) -> Result<(RawStmt<'a>, usize), SyntaxFault>
    ensures { Gives p.now.tokens view_stmt result (named_read (inside_read left) (rest_from p.now.tokens at)) }
{
    let (name, next) = name(p, at)?;
    if p.tokens.sees(next, &[Sign::Colon]) {
        return label(p, name, next);
    }
    behind_name(p, name, next, left)
}

/// An assignment or a call.
#[tactic(auto, using(crate::proofs::Begins::name_placed), unfolding(crate::specs::Reads::named_simple_read, rapid_forms::specs::Reading::made_read, rapid_forms::specs::Reading::seq_read, rapid_forms::specs::Reading::then_read))]
pub(crate) fn named_simple<'a>(
    p: &Parser<'_, 'a>,
    at: usize,
    left: u32,
) -> Result<(RawStmt<'a>, usize), SyntaxFault>
    ensures { Gives p.now.tokens view_stmt result (named_simple_read (inside_read left) (rest_from p.now.tokens at)) }
{
    let (name, next) = name(p, at)?;
    behind_name(p, name, next, left)
}

#[tactic(auto, unfolding(rapid_forms::specs::Reading::then_read))]
fn label<'a>(
    p: &Parser<'_, 'a>,
    name: RawName<'a>,
    at: usize,
) -> Result<(RawStmt<'a>, usize), SyntaxFault>
    ensures { Gives p.now.tokens view_stmt result (then_read (mark_read Sign.Colon (rest_from p.now.tokens at)) λ x rest. Ok (label_tree name.entry.at (view_name name.entry, x), rest)) }
{
    let (_colon, end) = p.tokens.take(at, &[Sign::Colon])?;
    Ok((RawStmt::label(name.at, name), end))
}

/// What makes a name an assignment or a call.
#[tactic(auto, unfolding(crate::specs::Reads::behind_name_read, rapid_forms::specs::Reading::either_read, rapid_forms::specs::Reading::made_read, rapid_forms::specs::Reading::then_read))]
fn behind_name<'a>(
    p: &Parser<'_, 'a>,
    name: RawName<'a>,
    at: usize,
    left: u32,
) -> Result<(RawStmt<'a>, usize), SyntaxFault>
    ensures { Gives p.now.tokens view_stmt result (then_read (behind_name_read (inside_read left) (rest_from p.now.tokens at)) λ x rest. Ok (named_simple_tree name.entry.at (view_name name.entry, x), rest)) }
{
    if p.tokens
        .sees(at, &[Sign::Assign, Sign::OpenBrace, Sign::Dot])
    {
        assignment(p, name, at, left)
    } else {
        call(p, name, at, left)
    }
}

/// What follows a name in a place, which is mostly nothing.
#[tactic(auto, using(expr_parser::proofs::Bare::no_parts))]
fn parts_if_any<'a>(
    p: &Parser<'_, 'a>,
    at: usize,
    left: u32,
) -> Result<((Option<RawExpr<'a>>, Vec<RawName<'a>>), usize), SyntaxFault>
    ensures { Gives p.now.tokens view_parts result (parts_read (inside_read left) (rest_from p.now.tokens at)) }
{
    if !p.tokens.sees(at, &[Sign::OpenBrace, Sign::Dot]) {
        return Ok(((None, Vec::new(p.alloc)), at));
    }
    place_parts(p, at, left)
}

#[tactic(auto, unfolding(crate::specs::Reads::assigned_read, rapid_forms::specs::Reading::seq_read, rapid_forms::specs::Reading::then_read))]
fn assignment<'a>(
    p: &Parser<'_, 'a>,
    name: RawName<'a>,
    at: usize,
    left: u32,
) -> Result<(RawStmt<'a>, usize), SyntaxFault>
    ensures { Gives p.now.tokens view_stmt result (then_read (assigned_read (inside_read left) (rest_from p.now.tokens at)) λ x rest. Ok (assigned_tree name.entry.at (view_name name.entry, x), rest)) }
{
    let ((index, parts), after) = parts_if_any(p, at, left)?;
    let place = RawPlace::new(p.alloc, name, index, parts)?;
    let (_assign, next) = p.tokens.take(after, &[Sign::Assign])?;
    let (value, last) = expr(p, next, left)?;
    let (_semicolon, end) = p.tokens.take(last, &[Sign::Semicolon])?;
    Ok((RawStmt::assign(name.at, place, value), end))
}

#[tactic(auto, unfolding(crate::specs::Reads::called_read, rapid_forms::specs::Reading::seq_read, rapid_forms::specs::Reading::then_read))]
fn call<'a>(
    p: &Parser<'_, 'a>,
    name: RawName<'a>,
    at: usize,
    left: u32,
) -> Result<(RawStmt<'a>, usize), SyntaxFault>
    ensures { Gives p.now.tokens view_stmt result (then_read (called_read (inside_read left) (rest_from p.now.tokens at)) λ x rest. Ok (call_tree name.entry.at (view_name name.entry, x), rest)) }
{
    let (args, last) = args_if_any(p, at, left)?;
    let (_semicolon, end) = p.tokens.take(last, &[Sign::Semicolon])?;
    Ok((RawStmt::call(name.at, name, args), end))
}
