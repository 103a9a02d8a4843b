//! What statements and declarations require of their expressions, places and calls.

ghost use Rattle.std.specs.Prelude.{◌≡◌, map, true};
ghost use Rattle.raw_trees.specs.Plain.{Place, args_of as raw_args_of};
ghost use Rattle.raw_trees.specs.Views.{view_arg as view_raw_arg, view_expr as view_raw, view_place as view_raw_place};
ghost use Rattle.typed_trees.specs.Plain.{args_of};
ghost use Rattle.typed_trees.specs.Views.{view_arg, view_expr, view_place};
ghost use Rattle.rule_checks.specs.TypeChecks.{Gives};
ghost use Rattle.named_data.specs.Views.{view_site};
ghost use Rattle.expr_types.specs.Typing;
ghost use Rattle.expr_types.specs.Places;
ghost use Rattle.expr_types.specs.Views.{view_signature};

use crate::lending::lent_at_place;
use crate::rules::call_rules;
use crate::signature::Signature;
use crate::typing::{arguments, place, typed};
use crate::want::Want;
use data_scopes::Scopes;
use named_data::{Site, Wanted};
use rapid_model::Sort;
use raw_trees::{RawArg, RawExpr, RawPlace};
use rule_checks::{Spot, TypeFault};
use std::alloc::Global;
use typed_trees::{Arg, Expr, TreePlace};

/// The typed form of an expression at the spot. The error is the first rule broken in it, from left to right and parts
/// before the whole, except NotConst and ConstFault, which apply only to constants (RAPID Overview, expressions; RAPID
/// Kernel, expressions). Checking a task calls `typed`, with one `Site`; this is for a tool that checks one expression.
pub fn check_expr(
    alloc: Global,
    scopes: &Scopes,
    spot: Spot,
    want: Want,
    raw: &RawExpr<'_>,
) -> Result<Expr, TypeFault>
    ensures { Gives view_expr result (Typing.typed (record { names = scopes.now; spot = spot }) (view_raw raw.now) (Typing.wanted want)) }
{
    let site = Site {
        alloc,
        scopes,
        spot,
    };
    typed(&site, raw, wanted(want))
}

/// What is required of a whole expression.
fn wanted(want: Want) -> Wanted
    ensures { result ≡ Typing.wanted want }
{
    match want {
        Want::Any => Wanted::Any,
        Want::Is(sort) => Wanted::Is(sort),
    }
}

/// The arguments of a call that starts at this byte, and its rules, for a procedure of the task or an instruction
/// (RAPID Kernel, procedure calls).
pub fn call_arguments(
    site: &Site<'_>,
    at: usize,
    raw: &Vec<RawArg<'_>>,
    signature: &Signature<'_>,
) -> Result<Vec<Arg>, TypeFault>
    ensures { Gives (λ v. args_of (map view_arg v.items)) result (Typing.call_arguments (view_site site.now) at (raw_args_of (map view_raw_arg raw.now.items)) (view_signature signature.now)) }
{
    let args = arguments(site, raw, signature)?;
    call_rules(site, at, signature, raw)?;
    Ok(args)
}

/// A place of this type, of any kind, as CONNECT takes one (RAPID Kernel, connect statement). That it is a place of the
/// type is a rule reported at this byte.
pub fn lent_place(
    site: &Site<'_>,
    raw: &RawPlace<'_>,
    at: usize,
    sort: Sort,
) -> Result<TreePlace, TypeFault>
    ensures { Gives view_place result (Places.lent_place (view_site site.now) at sort (view_raw_place raw.now)) }
{
    let part = place(site, raw, false)?;
    lent_at_place(site, sort, at, part)
}
