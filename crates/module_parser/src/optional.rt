//! Optional parts of declarations.

ghost use Rattle.std.specs.Prelude.{option_map, ◌∷◌, []};
ghost use Rattle.raw_trees.specs.Views.{view_expr, view_list};
ghost use Rattle.rapid_forms.specs.Reading.{Gives, optional_read, rest_from};
ghost use Rattle.expr_parser.specs.Reads.{expr_of_read, inside_read, value_read};
ghost use Rattle.stmt_parser.specs.Reads.{if_read, list_read};

use expr_parser::{expr, index};
use rapid_forms::{Parser, Sign, SyntaxFault};
use rapid_limits::MOST_LEVELS;
use raw_trees::{RawExpr, RawStmt};
use stmt_parser::list;

/// The length of an array, if there is one.
#[tactic(auto, unfolding(rapid_forms::specs::Reading::optional_read, rapid_forms::specs::Reading::then_read))]
pub(crate) fn length_if_any<'a>(
    p: &Parser<'_, 'a>,
    at: usize,
) -> Result<(Option<RawExpr<'a>>, usize), SyntaxFault>
    ensures { Gives p.now.tokens (option_map view_expr) result (optional_read (Sign.OpenBrace ∷ []) (inside_read MOST_LEVELS).index (rest_from p.now.tokens at)) }
{
    if !p.tokens.sees(at, &[Sign::OpenBrace]) {
        return Ok((None, at));
    }
    let (len, next) = index(p, at, MOST_LEVELS)?;
    Ok((Some(len), next))
}

/// The initial value of a datum, if there is one.
#[tactic(auto, unfolding(rapid_forms::specs::Reading::optional_read, rapid_forms::specs::Reading::then_read))]
pub(crate) fn value_if_any<'a>(
    p: &Parser<'_, 'a>,
    at: usize,
) -> Result<(Option<RawExpr<'a>>, usize), SyntaxFault>
    ensures { Gives p.now.tokens (option_map view_expr) result (optional_read (Sign.Assign ∷ []) (value_read (expr_of_read (inside_read MOST_LEVELS))) (rest_from p.now.tokens at)) }
{
    if !p.tokens.sees(at, &[Sign::Assign]) {
        return Ok((None, at));
    }
    let (value, next) = value(p, at)?;
    Ok((Some(value), next))
}

/// What follows the mark of a value.
#[tactic(auto, unfolding(expr_parser::specs::Reads::value_read, rapid_forms::specs::Reading::made_read, rapid_forms::specs::Reading::seq_read, rapid_forms::specs::Reading::then_read))]
fn value<'a>(p: &Parser<'_, 'a>, at: usize) -> Result<(RawExpr<'a>, usize), SyntaxFault>
    ensures { Gives p.now.tokens view_expr result (value_read (expr_of_read (inside_read MOST_LEVELS)) (rest_from p.now.tokens at)) }
{
    let (_assign, next) = p.tokens.take(at, &[Sign::Assign])?;
    expr(p, next, MOST_LEVELS)
}

/// An ERROR part, if there is one.
#[tactic(auto, unfolding(stmt_parser::specs::Reads::if_read, stmt_parser::specs::Reads::behind_read, rapid_forms::specs::Reading::optional_read, rapid_forms::specs::Reading::made_read, rapid_forms::specs::Reading::seq_read, rapid_forms::specs::Reading::then_read))]
pub(crate) fn handler_if_any<'a>(
    p: &Parser<'_, 'a>,
    at: usize,
) -> Result<(Option<Vec<RawStmt<'a>>>, usize), SyntaxFault>
    ensures { Gives p.now.tokens (option_map view_list) result (if_read Sign.Error (list_read MOST_LEVELS) (rest_from p.now.tokens at)) }
{
    if !p.tokens.sees(at, &[Sign::Error]) {
        return Ok((None, at));
    }
    let (_word, next) = p.tokens.take(at, &[Sign::Error])?;
    let (list, end) = list(p, next, MOST_LEVELS)?;
    Ok((Some(list), end))
}
