//! The sites of the expressions of a declaration.

ghost use Rattle.std.specs.Prelude.{◌≡◌, None};
ghost use Rattle.raw_trees.specs.Views.{view_expr as view_raw};
ghost use Rattle.named_data.specs.Views.{view_site};
ghost use Rattle.decl_types.specs.Values;

use data_scopes::{Scopes, begin_of};
use named_data::Site;
use raw_trees::RawExpr;
use rule_checks::Spot;
use std::alloc::Global;

/// The site at a byte of a module, outside the list of any FOR.
pub(crate) fn site_at<'a>(
    alloc: Global,
    scopes: &'a Scopes,
    number: u32,
    routine: Option<u32>,
    at: usize,
) -> Site<'a>
    ensures { view_site result ≡ record { names = scopes.now; spot = record { «module» = number; routine = routine; within = None; at = at } } }
{
    let spot = Spot {
        module: number,
        routine,
        within: None,
        at,
    };
    Site {
        alloc,
        scopes,
        spot,
    }
}

/// The site of an expression in a declaration of this site's module and routine.
pub(crate) fn value_site<'a>(declared: &Site<'a>, value: &RawExpr<'_>) -> Site<'a>
    ensures { view_site result ≡ Values.site_of declared.now.scopes.now declared.now.spot.«module» declared.now.spot.routine (view_raw value.now) }
{
    site_at(
        declared.alloc,
        declared.scopes,
        declared.spot.module,
        declared.spot.routine,
        begin_of(value),
    )
}
