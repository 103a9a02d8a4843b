//! The bounds of a FOR.

ghost use Rattle.std.specs.Prelude.{option_map};
ghost use Rattle.raw_trees.specs.Views.{view_expr as view_raw};
ghost use Rattle.typed_trees.specs.Views.{view_expr};
ghost use Rattle.rule_checks.specs.TypeChecks.{Gives};
ghost use Rattle.named_data.specs.Views.{view_site};
ghost use Rattle.stmt_types.specs.Bodies;
ghost use Rattle.stmt_types.specs.Views.{view_bounds};

use expr_types::typed;
use named_data::{Site, Wanted};
use rapid_model::Sort;
use raw_trees::{RawBounds, RawExpr};
use rule_checks::TypeFault;
use typed_trees::{Bounds, Expr};

fn step_of(site: &Site<'_>, step: &Option<RawExpr<'_>>) -> Result<Option<Expr>, TypeFault>
    ensures { Gives (λ step. option_map view_expr step) result (Bodies.step_of (view_site site.now) (option_map view_raw step.now)) }
{
    match step {
        None => Ok(None),
        Some(step) => Ok(Some(typed(site, step, Wanted::Is(Sort::Num))?)),
    }
}

/// The bounds of a FOR (RAPID Kernel, FOR).
pub(crate) fn bounds_of(site: &Site<'_>, raw: &Box<RawBounds<'_>>) -> Result<Bounds, TypeFault>
    ensures { let raw = raw.now.value in Gives view_bounds result (Bodies.bounds (view_site site.now) (view_raw raw.first) (view_raw raw.last) (option_map view_raw raw.step)) }
{
    let first = typed(site, &raw.first, Wanted::Is(Sort::Num))?;
    let last = typed(site, &raw.last, Wanted::Is(Sort::Num))?;
    let step = step_of(site, &raw.step)?;
    Ok(Bounds { first, last, step })
}
