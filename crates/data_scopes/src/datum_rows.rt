//! The rows of data of modules and routines.

ghost use Rattle.std.specs.Prelude.{◌≡◌, ◌++◌, ◌∷◌, [], Ok, option_map};
ghost use Rattle.raw_trees.specs.Views.{view_datum, view_expr, view_name};
ghost use Rattle.data_scopes.specs.Rows;
ghost use Rattle.rule_checks.specs.TypeChecks.{Gives};

use crate::checking::{sort_at, spot_of};
use crate::data_row::{DatumRow, Since};
use crate::numbers::{is_const, is_pers, is_scalar_const};
use crate::row_tables::RowTables;
use crate::tables::NameTables;
use raw_trees::{RawDatum, RawExpr, RawName};
use rule_checks::TypeFault;

/// The byte at which an expression starts, where a rule that it breaks is reported (RAPID Kernel, expressions). It is
/// the field `at`; the clause says so of the plain view.
pub fn begin_of(value: &RawExpr<'_>) -> usize
    ensures { result ≡ Rows.begin_of (view_expr value.now) }
{
    value.at
}

/// The byte at which the value of a datum starts, or that of its name if it has no value.
fn value_at(name: &RawName<'_>, value: &Option<RawExpr<'_>>) -> usize
    ensures { result ≡ Rows.value_at (view_name name.now) (option_map view_expr value.now) }
{
    match value {
        Some(value) => begin_of(value),
        None => name.at,
    }
}

/// Where a CONST of a module, or of one of its routines, is declared.
fn since_of(number: u32, datum: &RawDatum<'_>) -> Option<Since>
    ensures { result ≡ Rows.since_of number (view_datum datum.now) }
{
    if is_const(datum.kind) {
        return Some(Since {
            module: number,
            at: value_at(&datum.name, &datum.first),
        });
    }
    None
}

/// The row of a datum of a module, or of one of its routines.
pub(crate) fn datum_row(
    tables: &NameTables,
    number: u32,
    routine: Option<u32>,
    datum: &RawDatum<'_>,
) -> Result<DatumRow, TypeFault>
    ensures { Gives (λ row. row) result (Rows.datum_row tables.now number routine (view_datum datum.now)) }
{
    let spot = spot_of(number, routine, &datum.sort);
    let sort = sort_at(tables, spot, &datum.sort)?;
    Ok(DatumRow {
        sort,
        array: datum.len.is_some(),
        since: since_of(number, datum),
    })
}

/// Appends the row of a CONST that is not an array, of a PERS, or of another datum. Fails only if an allocation fails.
pub(crate) fn with_datum(
    rows: RowTables,
    datum: &RawDatum<'_>,
    row: DatumRow,
) -> Result<RowTables, TypeFault>
    ensures { Gives (λ rows. rows) result (Ok (Rows.with_datum rows (view_datum datum.now) row)) }
{
    let mut rows = rows;
    if is_scalar_const(datum) {
        rows.consts.push(row)?;
        return Ok(rows);
    }
    if is_pers(datum.kind) {
        rows.pers.push(row)?;
        return Ok(rows);
    }
    with_slot(rows, row)
}

/// Appends the row of a VAR or of a CONST array of a module. Fails only if an allocation fails.
fn with_slot(rows: RowTables, row: DatumRow) -> Result<RowTables, TypeFault>
    ensures { Gives (λ rows. rows) result (Ok (record { consts = rows.consts; slots = rows.slots ++ row ∷ []; pers = rows.pers; routines = rows.routines })) }
{
    let RowTables {
        consts,
        slots,
        pers,
        routines,
    } = rows;
    let slots = slots.with_row(row)?;
    Ok(RowTables {
        consts,
        slots,
        pers,
        routines,
    })
}
