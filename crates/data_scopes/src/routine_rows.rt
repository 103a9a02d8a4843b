//! The rows of routines, of their parameters and of their data.

ghost use Rattle.std.specs.Prelude.{◌≡◌, ◌++◌, [], map, option_map, OnOk, IfErr};
ghost use Rattle.raw_trees.specs.Views.{view_datum, view_name, view_param, view_routine};
ghost use Rattle.data_scopes.specs.Rows;
ghost use Rattle.rule_checks.specs.TypeChecks.{Gives};
ghost use Rattle.rule_checks.specs.declared.fault.TypeFault.TheVariants.{Memory};

use crate::checking::{sort_at, spot_of};
use crate::data_row::{DatumRow, ParamRow};
use crate::datum_rows::datum_row;
use crate::routine_entry::RoutineEntry;
use crate::row_tables::RowTables;
use crate::tables::NameTables;
use rapid_model::Sort;
use raw_trees::{RawDatum, RawName, RawParam, RawRoutine};
use rule_checks::TypeFault;
use std::alloc::Global;

/// The row of a parameter.
fn param_row(
    tables: &NameTables,
    number: u32,
    routine: u32,
    param: &RawParam<'_>,
) -> Result<ParamRow, TypeFault>
    ensures { Gives (λ row. row) result (Rows.param_row tables.now number routine (view_param param.now)) }
{
    let spot = spot_of(number, Some(routine), &param.sort);
    let sort = sort_at(tables, spot, &param.sort)?;
    Ok(ParamRow {
        mode: param.mode,
        sort,
    })
}

/// The rows of a routine's parameters.
fn param_rows(
    alloc: Global,
    tables: &NameTables,
    number: u32,
    routine: u32,
    params: &[RawParam<'_>],
) -> Result<Vec<ParamRow>, TypeFault>
    ensures { Gives (λ v. v.items) result (Rows.param_rows tables.now number routine (map view_param params.now) []) }
{
    let mut rows = Vec::new(alloc);
    for param in params {
        rows.push(param_row(tables, number, routine, param)?)?;
    }
    Ok(rows)
}

/// The rows of a routine's data.
fn local_rows(
    alloc: Global,
    tables: &NameTables,
    number: u32,
    routine: u32,
    locals: &[RawDatum<'_>],
) -> Result<Vec<DatumRow>, TypeFault>
    ensures { Gives (λ v. v.items) result (Rows.local_rows tables.now number routine (map view_datum locals.now) []) }
{
    let mut rows = Vec::new(alloc);
    for datum in locals {
        rows.push(datum_row(tables, number, Some(routine), datum)?)?;
    }
    Ok(rows)
}

/// The type of a function's result.
fn result_row(
    tables: &NameTables,
    number: u32,
    routine: u32,
    name: &Option<RawName<'_>>,
) -> Result<Option<Sort>, TypeFault>
    ensures { Gives (λ sort. sort) result (Rows.result_row tables.now number routine (option_map view_name name.now)) }
{
    match name {
        None => Ok(None),
        Some(name) => {
            let spot = spot_of(number, Some(routine), name);
            let sort = sort_at(tables, spot, name)?;
            Ok(Some(sort))
        }
    }
}

/// The row of the routine with this number.
pub(crate) fn routine_row(
    alloc: Global,
    tables: &NameTables,
    number: u32,
    routine: u32,
    raw: &RawRoutine<'_>,
) -> Result<RoutineEntry, TypeFault>
    ensures { Gives (λ row. row) result (Rows.routine_row tables.now number routine (view_routine raw.now)) }
{
    let result = result_row(tables, number, routine, &raw.result)?;
    let params = param_rows(alloc, tables, number, routine, &raw.params)?;
    let locals = local_rows(alloc, tables, number, routine, &raw.locals)?;
    Ok(RoutineEntry {
        kind: raw.kind,
        result,
        params,
        locals,
    })
}

/// Appends the rows of the CONSTs among a routine's data that are not arrays.
fn push_scalars(locals: &[DatumRow], consts: &mut Vec<DatumRow>) -> Result<(), TypeFault>
    ensures ok { OnOk result (consts.new.items ≡ consts.old.items ++ Rows.scalar_rows locals.now) }
    ensures err { IfErr result (λ e. e ≡ Memory) }
{
    for row in locals {
        if row.since.is_some() && !row.array {
            consts.push(*row)?;
        }
    }
    Ok(())
}

/// Appends the row of a routine, and those of its CONSTs. Fails only if an allocation fails.
pub(crate) fn with_routine(rows: RowTables, row: RoutineEntry) -> Result<RowTables, TypeFault>
    ensures { Gives (λ rows. rows) result (Ok (Rows.with_routine rows row)) }
{
    let mut rows = rows;
    push_scalars(&row.locals, &mut rows.consts)?;
    rows.routines.push(row)?;
    Ok(rows)
}
