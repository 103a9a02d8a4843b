//! Expressions after a word or mark.

ghost use Rattle.raw_trees.specs.Views.{view_expr};
ghost use Rattle.rapid_forms.specs.Reading.{Gives, rest_from};
ghost use Rattle.expr_parser.specs.Reads.{expr_of_read, inside_read};
ghost use Rattle.stmt_parser.specs.Reads.{behind_read};

use expr_parser::expr;
use rapid_forms::{Parser, Sign, SyntaxFault};
use raw_trees::RawExpr;

/// A word or mark and the expression after it.
#[tactic(auto, unfolding(crate::specs::Reads::behind_read, rapid_forms::specs::Reading::made_read, rapid_forms::specs::Reading::seq_read, rapid_forms::specs::Reading::then_read))]
pub(crate) fn expr_behind<'a>(
    p: &Parser<'_, 'a>,
    at: usize,
    left: u32,
    sign: Sign,
) -> Result<(RawExpr<'a>, usize), SyntaxFault>
    ensures { Gives p.now.tokens view_expr result (behind_read sign (expr_of_read (inside_read left)) (rest_from p.now.tokens at)) }
{
    let (_word, next) = p.tokens.take(at, &[sign])?;
    expr(p, next, left)
}
