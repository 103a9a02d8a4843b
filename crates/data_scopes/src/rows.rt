//! The third pass over a task's modules: what is declared, by its number.

ghost use Rattle.std.specs.Prelude.{◌≡◌, length, map, IfOk, IfErr};
ghost use Rattle.raw_trees.specs.Views.{view_item, view_module};
ghost use Rattle.data_scopes.specs.Rows;
ghost use Rattle.rule_checks.specs.TypeChecks.{Gives};
ghost use Rattle.rule_checks.specs.declared.fault.TypeFault.TheVariants.{Memory};

use crate::datum_rows::{datum_row, with_datum};
use crate::numbers::number_after;
use crate::routine_rows::{routine_row, with_routine};
use crate::row_tables::RowTables;
use crate::slots::Slots;
use crate::tables::NameTables;
use raw_trees::{RawItem, RawModule};
use rule_checks::TypeFault;
use std::alloc::Global;

/// No rows.
fn no_rows(alloc: Global) -> RowTables
    ensures { result ≡ Rows.no_rows }
{
    RowTables {
        consts: Vec::new(alloc),
        slots: Slots::new(alloc),
        pers: Vec::new(alloc),
        routines: Vec::new(alloc),
    }
}

/// The number of the next routine after these rows.
fn next_routine(rows: &RowTables) -> Result<u32, TypeFault>
    ensures ok { IfOk result (λ n. n ≡ length rows.now.routines) }
    ensures err { IfErr result (λ e. e ≡ Memory) }
{
    match u32::try_from(rows.routines.len()) {
        Ok(number) => Ok(number),
        Err(_) => Err(TypeFault::Memory),
    }
}

/// Appends the rows of an item of a module.
fn item_rows(
    alloc: Global,
    tables: &NameTables,
    number: u32,
    item: &RawItem<'_>,
    rows: RowTables,
) -> Result<RowTables, TypeFault>
    ensures { Gives (λ rows. rows) result (Rows.item_rows tables.now number (view_item item.now) rows) }
{
    match item {
        RawItem::Datum { datum, .. } => {
            let row = datum_row(tables, number, None, datum)?;
            with_datum(rows, datum, row)
        }
        RawItem::Routine(routine) => {
            let own = next_routine(&rows)?;
            let row = routine_row(alloc, tables, number, own, routine)?;
            with_routine(rows, row)
        }
    }
}

/// Appends the rows of the items of a module.
fn items_rows(
    alloc: Global,
    tables: &NameTables,
    number: u32,
    items: &[RawItem<'_>],
    rows: RowTables,
) -> Result<RowTables, TypeFault>
    ensures { Gives (λ rows. rows) result (Rows.items_rows tables.now number (map view_item items.now) rows) }
{
    let mut more = rows;
    for item in items {
        more = item_rows(alloc, tables, number, item, more)?;
    }
    Ok(more)
}

/// The rows of the declarations of all modules.
pub(crate) fn modules_rows(
    alloc: Global,
    tables: &NameTables,
    modules: &[RawModule<'_>],
) -> Result<RowTables, TypeFault>
    ensures { Gives (λ rows. rows) result (Rows.modules_rows tables.now 0 (map view_module modules.now) Rows.no_rows) }
{
    let mut number = 0;
    let mut rows = no_rows(alloc);
    for unit in modules {
        rows = items_rows(alloc, tables, number, &unit.items, rows)?;
        number = number_after(number)?;
    }
    Ok(rows)
}
