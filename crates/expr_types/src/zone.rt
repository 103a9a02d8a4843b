//! The variable of a world zone (RAPID Instructions, Functions and Data types, WZLimSup, WZDOSet).

ghost use Rattle.std.specs.Prelude.{◌≡◌, map};
ghost use Rattle.raw_trees.specs.Plain.{args_of};
ghost use Rattle.raw_trees.specs.Views.{view_arg as view_raw_arg};
ghost use Rattle.expr_types.specs.Calls;

use rapid_builtins::Need;
use rapid_model::Sort;
use raw_trees::RawArg;

/// What the variable must be, given the first of the options Temp and Stat.
pub(crate) fn zone_need(args: &[RawArg<'_>]) -> Need
    ensures { result ≡ Calls.zone_need (args_of (map view_raw_arg args.now)) }
{
    for arg in args {
        if let Some(need) = zone_need_of(arg) {
            return need;
        }
    }
    Need::WorldZone
}

/// What the variable must be, given an option.
fn zone_need_of(arg: &RawArg<'_>) -> Option<Need>
    ensures { result ≡ Calls.zone_need_of (view_raw_arg arg.now) }
{
    match arg {
        RawArg::Option { name, .. } => zone_named(name.text),
        RawArg::Needed(_) => None,
    }
}

fn zone_named(name: &[u8]) -> Option<Need>
    ensures { result ≡ Calls.zone_named name.now }
{
    if b"Temp".eq_ignore_ascii_case(name) {
        return Some(Need::Var(Sort::WzTemporary));
    }
    if b"Stat".eq_ignore_ascii_case(name) {
        return Some(Need::Var(Sort::WzStationary));
    }
    None
}
