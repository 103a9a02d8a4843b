//! What the script says about persistents.

ghost use Rattle.std.specs.Prelude.{◌≡◌, ◌&&◌, slice_get};
ghost use Rattle.cell_assembly.specs.declared.cell_fault.CellFault.TheVariants.{Script};
ghost use Rattle.cell_assembly.specs.Cells;
ghost use Rattle.cell_assembly.specs.Parts.{view_infos};
ghost use Rattle.cell_assembly.specs.Views.{Gives, view_info};

use crate::cell_fault::CellFault;
use crate::pers_info::PersInfo;
use crate::persistents::Persistents;
use itoa::Buffer;
use rapid_model::{PersValue, ScriptRule, Sort, Text, Value, show, width};

/// Whether a script may give the value to data of the type.
fn is_script_value(sort: Sort, value: &Value) -> bool
    ensures { result ≡ Cells.is_script_value sort value.now }
{
    match (sort, value) {
        (Sort::Num, Value::Num(_)) => true,
        (Sort::Bool, Value::Bool(_)) => true,
        (Sort::Text, Value::Text(_)) => true,
        _ => false,
    }
}

/// Whether this names an element of an array, or a whole persistent that is not an array.
fn fits_index(len: Option<u16>, index: Option<u16>) -> bool
    ensures { result ≡ Cells.fits_index len index }
{
    if len.is_some() {
        index.is_some()
    } else {
        index.is_none()
    }
}

/// The element, from 0, that an index from 1 names.
fn element(index: Option<u16>) -> usize
    ensures { result ≡ Cells.element index }
{
    match index {
        Some(index) => index.saturating_sub(1) as usize,
        None => 0,
    }
}

/// The key of the value with this number in the script.
fn key_of(number: usize) -> Text
    ensures { result ≡ Cells.key_of number }
{
    let mut text = Text::new();
    let mut buffer = Buffer::new();
    show(&mut text, b"pers[");
    show(&mut text, buffer.format(number).as_bytes());
    show(&mut text, b"]");
    text
}

/// The value with this number in the script breaks a rule.
fn in_script(number: usize, rule: ScriptRule) -> CellFault
    ensures { result ≡ Script (Cells.key_of number) rule }
{
    CellFault::Script {
        key: key_of(number),
        rule,
    }
}

/// Whether the script has already given a value to the element at this index.
fn is_given(given: &[Option<Value>], index: usize) -> bool
    ensures { result ≡ Cells.is_given (slice_get given.now index) }
{
    match given.get(index) {
        Some(value) => value.is_some(),
        None => false,
    }
}

/// Sets the value of the element at this index; nothing changes if there is none.
fn with_given(info: &mut PersInfo, index: usize, value: Value)
    ensures { view_info info.new ≡ Cells.with_given (view_info info.old) index value }
{
    if index < info.given.len() {
        info.given[index] = Some(value);
    }
}

/// Whether a value of the script has a persistent's type, and names an element exactly if the persistent is an array.
fn suits(info: &PersInfo, row: &PersValue) -> bool
    ensures { result ≡ (Cells.is_script_value info.now.sort row.now.value && Cells.fits_index info.now.len row.now.index) }
{
    is_script_value(info.sort, &row.value) && fits_index(info.len, row.index)
}

/// A value of the script for the persistent with this number.
fn give_to(
    infos: Vec<PersInfo>,
    number: usize,
    row: &PersValue,
    k: u32,
) -> Result<Vec<PersInfo>, CellFault>
    ensures { let ps = view_infos infos in Gives view_infos result (Cells.give_to ps number row.now k (slice_get ps k)) }
{
    let mut infos = infos;
    let at = k as usize;
    if at >= infos.len() {
        return Err(in_script(number, ScriptRule::NoSuch));
    }
    let info = &mut infos[at];
    if !suits(info, row) {
        return Err(in_script(number, ScriptRule::Kind));
    }
    let index = element(row.index);
    if index >= width(info.len) {
        return Err(in_script(number, ScriptRule::Range));
    }
    if is_given(&info.given, index) {
        return Err(in_script(number, ScriptRule::Twice));
    }
    with_given(info, index, row.value.copy());
    Ok(infos)
}

/// A value of the script for the global persistent with this number, if there is one.
fn give_global(
    infos: Vec<PersInfo>,
    number: usize,
    row: &PersValue,
    k: Option<u32>,
) -> Result<Vec<PersInfo>, CellFault>
    ensures { Gives view_infos result (Cells.give_global (view_infos infos) number row.now k) }
{
    match k {
        Some(k) => give_to(infos, number, row, k),
        None => Err(in_script(number, ScriptRule::NoSuch)),
    }
}

/// The value with this number in the script.
fn give(pers: Persistents, number: usize, row: &PersValue) -> Result<Persistents, CellFault>
    ensures { Gives (λ given. given) result (Cells.give pers number row.now) }
{
    let k = pers.global_number(&row.name);
    let Persistents { infos, globals } = pers;
    let infos = give_global(infos, number, row, k)?;
    Ok(Persistents { infos, globals })
}

/// The values of the script, in order.
pub(crate) fn give_all(pers: Persistents, rows: &[PersValue]) -> Result<Persistents, CellFault>
    ensures { Gives (λ given. given) result (Cells.give_all pers 0 rows.now) }
{
    let mut given = pers;
    for (number, row) in rows.iter().enumerate() {
        given = give(given, number, row)?;
    }
    Ok(given)
}
