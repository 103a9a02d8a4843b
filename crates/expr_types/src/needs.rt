//! What the arguments of a call must be, in order.

ghost use Rattle.std.specs.Prelude.{◌≡◌, drop, length};
ghost use Rattle.expr_types.specs.Calls;
ghost use Rattle.expr_types.specs.Views.{view_needs};

use data_scopes::ParamRow;
use rapid_builtins::{Need, parameter_need};

/// The needs of the remaining arguments, in order (RAPID Kernel, procedure calls).
#[derive(Clone, Copy)]
pub enum Needs<'a> {
    /// Those of a predefined function or instruction; `zone` is the need for the variable of a world zone.
    Predefined { needs: &'a [Need], zone: Need },
    /// Those of a routine's parameters.
    Params(&'a [ParamRow]),
}

impl<'a> Needs<'a> {
    /// What the next argument must be; `None` exactly if none is left.
    pub fn first(self) -> Option<Need>
        ensures { result ≡ Calls.first_need (view_needs self.entry) }
    {
        match self {
            Needs::Predefined { needs, zone } => first_predefined(needs, zone),
            Needs::Params(params) => first_param(params),
        }
    }

    /// The needs after the first.
    pub fn rest(self) -> Needs<'a>
        ensures { view_needs result ≡ drop 1 (view_needs self.entry) }
    {
        match self {
            Needs::Predefined { needs, zone } => Needs::Predefined {
                needs: behind_first(needs),
                zone,
            },
            Needs::Params(params) => Needs::Params(behind_first(params)),
        }
    }

    /// How many arguments are left.
    pub fn count(self) -> usize
        ensures { result ≡ length (view_needs self.entry) }
    {
        match self {
            Needs::Predefined { needs, .. } => needs.len(),
            Needs::Params(params) => params.len(),
        }
    }
}

/// The rows after the first.
fn behind_first<T>(rows: &[T]) -> &[T]
    ensures { result.now ≡ drop 1 rows.now }
{
    match rows {
        [] => rows,
        [_, rest @ ..] => rest,
    }
}

/// The first need of a predefined function or instruction.
fn first_predefined(needs: &[Need], zone: Need) -> Option<Need>
    ensures { result ≡ Calls.first_need (view_needs (Needs.Predefined needs.entry zone)) }
{
    match needs.first() {
        Some(need) => Some(with_zone(zone, *need)),
        None => None,
    }
}

/// The need of the first parameter.
fn first_param(params: &[ParamRow]) -> Option<Need>
    ensures { result ≡ Calls.first_need (view_needs (Needs.Params params.entry)) }
{
    match params.first() {
        Some(param) => Some(need_of(*param)),
        None => None,
    }
}

/// The need, or `zone` for the variable of a world zone.
fn with_zone(zone: Need, need: Need) -> Need
    ensures { result ≡ Calls.with_zone zone need }
{
    match need {
        Need::WorldZone => zone,
        other => other,
    }
}

/// The need of a parameter (RAPID Kernel, parameter declarations).
fn need_of(param: ParamRow) -> Need
    ensures { result ≡ Calls.need_of param }
{
    parameter_need(param.mode, param.sort)
}
