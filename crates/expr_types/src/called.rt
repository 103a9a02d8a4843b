//! Functions that expressions call.

ghost use Rattle.std.specs.Prelude.{◌≡◌};
ghost use Rattle.raw_trees.specs.Views.{view_name};
ghost use Rattle.rule_checks.specs.TypeChecks.{Gives};
ghost use Rattle.named_data.specs.Views.{view_site};
ghost use Rattle.expr_types.specs.Calls;
ghost use Rattle.expr_types.specs.Views.{view_called};

use crate::callee::Callee;
use crate::names::named;
use crate::signature::{Signature, function_signature, routine_signature};
use data_scopes::Meant;
use named_data::{Site, fault};
use rapid_builtins::function_result;
use rapid_model::{RoutineKind, Sort};
use raw_trees::RawName;
use rule_checks::{TypeFault, TypeRule};

/// A called function, its signature, and the type of its result (RAPID Kernel, function calls).
#[derive(Clone, Copy)]
pub struct Called<'a> {
    pub callee: Callee,
    pub signature: Signature<'a>,
    pub sort: Sort,
}

/// The function that a name means. NoName and NotThis are reported at the name.
pub(crate) fn function_at<'a>(site: &Site<'a>, name: &RawName<'_>) -> Result<Called<'a>, TypeFault>
    ensures { Gives view_called result (Calls.function_at (view_site site.now) (view_name name.now)) }
{
    function_meant(site, name.at, named(site, name))
}

fn function_meant<'a>(
    site: &Site<'a>,
    at: usize,
    meant: Option<Meant>,
) -> Result<Called<'a>, TypeFault>
    ensures { Gives view_called result (Calls.function_meant (view_site site.now) at meant) }
{
    match meant {
        None => Err(fault(site, at, TypeRule::NoName)),
        Some(Meant::Function(function)) => Ok(Called {
            callee: Callee::Builtin(function),
            signature: function_signature(function),
            sort: function_result(function),
        }),
        Some(Meant::Routine(routine)) => routine_function(site, at, routine),
        Some(_) => Err(fault(site, at, TypeRule::NotThis)),
    }
}

/// A function of the task; only functions have a result.
fn routine_function<'a>(site: &Site<'a>, at: usize, routine: u32) -> Result<Called<'a>, TypeFault>
    ensures { Gives view_called result (Calls.function_meant (view_site site.now) at (Some (Meant.Routine routine))) }
{
    let Some(RoutineKind::Func) = site.scopes.routine_kind(routine) else {
        return Err(fault(site, at, TypeRule::NotThis));
    };
    let Some(sort) = site.scopes.routine_result(routine) else {
        return Err(fault(site, at, TypeRule::NotThis));
    };
    Ok(Called {
        callee: Callee::Routine(routine),
        signature: routine_signature(site.scopes.routine_params(routine)),
        sort,
    })
}
