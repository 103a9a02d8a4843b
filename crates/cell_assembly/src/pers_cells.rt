//! The first values of persistents.

ghost use Rattle.std.specs.Prelude.{◌≡◌, Ok, map, replicate, unwrap_or};
ghost use Rattle.cell_assembly.specs.Made;
ghost use Rattle.cell_assembly.specs.Views.{Gives, view_info};

use crate::cell_fault::CellFault;
use crate::one_pers::copy_values;
use crate::pers_info::PersInfo;
use rapid_model::{PersCell, Sequence, Sort, Value, width};
use rapid_num::Num;
use rapid_values::start_value;
use std::alloc::Global;

/// The initial value of an element. Each persistent's type has values.
fn start_of(sort: Sort) -> Value
    ensures { result ≡ Made.start_of sort }
{
    match start_value(sort) {
        Some(value) => value,
        None => Value::Num(Num::new(0).unwrap()),
    }
}

/// The initial values of that many elements.
fn start_values(alloc: Global, sort: Sort, width: usize) -> Result<Vec<Value>, CellFault>
    ensures { Gives (λ values. values.items) result (Ok (replicate width (Made.start_of sort))) }
{
    let mut values = Vec::with_capacity(alloc, width)?;
    for _element in 0..width {
        values.push(start_of(sort))?;
    }
    Ok(values)
}

/// What a declaration gives the elements, otherwise their initial values.
fn declared_values(alloc: Global, info: &PersInfo) -> Result<Vec<Value>, CellFault>
    ensures { Gives (λ values. values.items) result (Ok (Made.declared_values (view_info info.now))) }
{
    match &info.declared {
        Some(values) => copy_values(alloc, values),
        None => start_values(alloc, info.sort, width(info.len)),
    }
}

/// What the script gives an element, otherwise this value.
fn given_or(given: &Option<Value>, value: &Value) -> Value
    ensures { result ≡ unwrap_or given.now value.now }
{
    match given {
        Some(given) => given.copy(),
        None => value.copy(),
    }
}

/// What the script gives the elements, in place of these values.
fn over(alloc: Global, given: &[Option<Value>], values: &[Value]) -> Result<Vec<Value>, CellFault>
    ensures { Gives (λ first. first.items) result (Ok (Made.over given.now values.now)) }
{
    let mut first = Vec::with_capacity(alloc, given.len())?;
    for (given, value) in given.iter().zip(values) {
        first.push(given_or(given, value))?;
    }
    Ok(first)
}

/// A persistent with its first values. Fails only if an allocation fails.
fn pers_cell(alloc: Global, info: &PersInfo) -> Result<PersCell, CellFault>
    ensures { Gives (λ cell. cell) result (Ok (Made.pers_cell (view_info info.now))) }
{
    let declared = declared_values(alloc, info)?;
    let first = over(alloc, &info.given, &declared)?;
    Ok(PersCell {
        name: info.name.copy(),
        owner: info.owner,
        sort: info.sort,
        len: info.len,
        first: Sequence::from_vec(first),
    })
}

/// Persistents with their first values. Fails only if an allocation fails.
pub(crate) fn pers_cells(alloc: Global, pers: &[PersInfo]) -> Result<Vec<PersCell>, CellFault>
    ensures { Gives (λ cells. cells.items) result (Ok (map Made.pers_cell (map view_info pers.now))) }
{
    let mut cells = Vec::with_capacity(alloc, pers.len())?;
    for info in pers {
        cells.push(pers_cell(alloc, info)?)?;
    }
    Ok(cells)
}
