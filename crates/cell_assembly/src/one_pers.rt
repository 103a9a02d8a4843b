//! Declarations of persistents: which of them are the same.

ghost use Rattle.std.specs.Prelude.{◌≡◌, ◌&&◌, None, Ok, map, option_map, replicate, slice_get, OnOk, IfErr};
ghost use Rattle.named_data.specs.Wants.{same_sort};
ghost use Rattle.typed_trees.specs.Views.{view_pers};
ghost use Rattle.cell_assembly.specs.declared.cell_fault.CellFault.TheVariants.{Memory};
ghost use Rattle.cell_assembly.specs.Cells;
ghost use Rattle.cell_assembly.specs.Parts.{view_numbered, view_values};
ghost use Rattle.cell_assembly.specs.Views.{Gives, view_info};

use crate::cell_fault::CellFault;
use crate::numbered::{Numbered, added};
use crate::pers_info::PersInfo;
use crate::persistents::Persistents;
use named_data::same_sort;
use rapid_model::{Value, width};
use std::alloc::Global;
use typed_trees::PersRow;

fn same_len(a: Option<u16>, b: Option<u16>) -> bool
    ensures { result ≡ Cells.same_len a b }
{
    match (a, b) {
        (None, None) => true,
        (Some(a), Some(b)) => a == b,
        _ => false,
    }
}

/// A copy of the values.
pub(crate) fn copy_values(alloc: Global, values: &[Value]) -> Result<Vec<Value>, CellFault>
    ensures { Gives (λ copy. copy.items) result (Ok values.now) }
{
    let mut copy = Vec::with_capacity(alloc, values.len())?;
    for value in values {
        copy.push(value.copy())?;
    }
    Ok(copy)
}

/// A copy of the values, if there are any.
fn copy_first(alloc: Global, first: &Option<Vec<Value>>) -> Result<Option<Vec<Value>>, CellFault>
    ensures { Gives view_values result (Ok (view_values first.now)) }
{
    match first {
        Some(values) => Ok(Some(copy_values(alloc, values)?)),
        None => Ok(None),
    }
}

/// That many elements to which the script gives nothing.
fn nothing_given(alloc: Global, width: usize) -> Result<Vec<Option<Value>>, CellFault>
    ensures { Gives (λ given. given.items) result (Ok (replicate width None)) }
{
    let mut given = Vec::with_capacity(alloc, width)?;
    for _element in 0..width {
        given.push(None)?;
    }
    Ok(given)
}

/// The persistent of a declaration; it belongs to this task unless it is global. Fails only if an allocation fails.
fn new_pers(alloc: Global, owner: Option<u32>, row: &PersRow) -> Result<PersInfo, CellFault>
    ensures { Gives view_info result (Ok (Cells.new_pers owner (view_pers row.now))) }
{
    Ok(PersInfo {
        name: row.name.copy(),
        owner,
        sort: row.sort,
        len: row.len,
        declared: copy_first(alloc, &row.first)?,
        given: nothing_given(alloc, width(row.len))?,
    })
}

/// Takes the values of one more declaration, if none before gave any.
fn with_declared(alloc: Global, info: &mut PersInfo, row: &PersRow) -> Result<(), CellFault>
    ensures ok { OnOk result (view_info info.new ≡ Cells.with_declared (view_info info.old) (view_pers row.now)) }
    ensures err { IfErr result (λ fault. fault ≡ Memory) }
{
    if info.declared.is_none() {
        info.declared = copy_first(alloc, &row.first)?;
    }
    Ok(())
}

/// Whether a declaration has the type and the length of a persistent.
fn is_alike(info: &PersInfo, row: &PersRow) -> bool
    ensures { result ≡ (same_sort info.now.sort row.now.sort && Cells.same_len info.now.len row.now.len) }
{
    same_sort(info.sort, row.sort) && same_len(info.len, row.len)
}

/// One more declaration of the global persistent with this number, with its type and length.
fn join(
    alloc: Global,
    before: Numbered,
    task: u32,
    row: &PersRow,
    number: u32,
) -> Result<Numbered, CellFault>
    ensures { let n = view_numbered before in Gives view_numbered result (Cells.join n task (view_pers row.now) number (slice_get n.pers number)) }
{
    let index = number as usize;
    if index >= before.pers.len() {
        return added(before, new_pers(alloc, None, row)?);
    }
    let Numbered { pers, numbers } = before;
    let Persistents { infos, globals } = pers;
    let mut infos = infos;
    let mut numbers = numbers;
    let info = &mut infos[index];
    if !is_alike(info, row) {
        return Err(CellFault::Clash {
            task,
            module: row.module,
            at: row.at,
        });
    }
    with_declared(alloc, info, row)?;
    numbers.push(number)?;
    let pers = Persistents { infos, globals };
    Ok(Numbered { pers, numbers })
}

/// A declaration of a global persistent, which has this number if it is known.
fn global_pers(
    alloc: Global,
    before: Numbered,
    task: u32,
    row: &PersRow,
    number: Option<u32>,
) -> Result<Numbered, CellFault>
    ensures { Gives view_numbered result (Cells.global_pers (view_numbered before) task (view_pers row.now) number) }
{
    match number {
        None => added(before, new_pers(alloc, None, row)?),
        Some(number) => join(alloc, before, task, row, number),
    }
}

/// A PERS of a tree: the task's own, or a global one.
fn one_pers(
    alloc: Global,
    before: Numbered,
    task: u32,
    row: &PersRow,
) -> Result<Numbered, CellFault>
    ensures { Gives view_numbered result (Cells.one_pers (view_numbered before) task (view_pers row.now)) }
{
    if row.own {
        return added(before, new_pers(alloc, Some(task), row)?);
    }
    let number = before.pers.global_number(&row.name);
    global_pers(alloc, before, task, row, number)
}

/// The PERS of a tree, in order.
pub(crate) fn all_pers(
    alloc: Global,
    before: Numbered,
    task: u32,
    rows: &[PersRow],
) -> Result<Numbered, CellFault>
    ensures { Gives view_numbered result (Cells.all_pers (view_numbered before) task (map view_pers rows.now)) }
{
    let mut more = before;
    for row in rows {
        more = one_pers(alloc, more, task, row)?;
    }
    Ok(more)
}
