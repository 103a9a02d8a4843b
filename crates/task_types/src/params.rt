//! Parameters of a routine.

ghost use Rattle.std.specs.Prelude.{◌≡◌, ◌++◌, [], ◌∷◌, Ok, map, slice_get};
ghost use Rattle.raw_trees.specs.Views.{view_param as view_raw};
ghost use Rattle.typed_trees.specs.Views.{view_param};
ghost use Rattle.rule_checks.specs.TypeChecks.{Gives};
ghost use Rattle.task_types.specs.Task;

use data_scopes::ParamRow;
use named_data::name_text;
use raw_trees::RawParam;
use rule_checks::TypeFault;
use std::alloc::Global;
use typed_trees::Param;

/// The row of the parameter at this index.
fn row_at(rows: &[ParamRow], index: usize) -> Option<ParamRow>
    ensures { result ≡ slice_get rows.now index }
{
    rows.get(index).copied()
}

/// Appends a parameter, by its name and its row.
fn with_param(
    typed: Vec<Param>,
    param: &RawParam<'_>,
    row: ParamRow,
) -> Result<Vec<Param>, TypeFault>
    ensures { Gives (λ v. map view_param v.items) result (Ok (map view_param typed.items ++ Task.typed_params (view_raw param.now ∷ []) (row ∷ []))) }
{
    let name = name_text(param.name.text)?;
    let mut typed = typed;
    typed.push(Param {
        name,
        mode: row.mode,
        sort: row.sort,
    })?;
    Ok(typed)
}

/// The parameters by their names and their rows.
pub(crate) fn typed_params(
    alloc: Global,
    params: &[RawParam<'_>],
    rows: &[ParamRow],
) -> Result<Vec<Param>, TypeFault>
    ensures { Gives (λ v. map view_param v.items) result (Ok (Task.typed_params (map view_raw params.now) rows.now)) }
{
    let mut typed = Vec::new(alloc);
    for (index, param) in params.iter().enumerate() {
        let Some(row) = row_at(rows, index) else {
            return Ok(typed);
        };
        typed = with_param(typed, param, row)?;
    }
    Ok(typed)
}
