//! Data of modules.

ghost use Rattle.std.specs.Prelude.{◌≡◌, None};
ghost use Rattle.raw_trees.specs.Views.{view_datum};
ghost use Rattle.rule_checks.specs.TypeChecks.{Gives};
ghost use Rattle.typed_trees.specs.Views.{view_pers, view_slot};
ghost use Rattle.decl_types.specs.Data;
ghost use Rattle.decl_types.specs.Parts.{pers_row, slot_row, view_initial};
ghost use Rattle.decl_types.specs.Values;
ghost use Rattle.decl_types.specs.Views.{view_progress};

use crate::first_data::first_data;
use crate::initial::{Initial, initial_of};
use crate::known::{keeping, known_elements};
use crate::numbers::more_values;
use crate::progress::Progress;
use crate::sites::site_at;
use constant_meaning::Arrays;
use data_scopes::{DatumRow, is_const, is_pers, is_scalar_const, number_after};
use named_data::{name_text, number_of};
use rapid_model::{Sort, width};
use raw_trees::RawDatum;
use rule_checks::TypeFault;
use std::alloc::Global;
use typed_trees::{PersRow, SlotRow};

/// The type of a declared datum; each number that is in use has a row.
pub(crate) fn sort_in(row: Option<DatumRow>) -> Sort
    ensures { result ≡ Data.sort_in row }
{
    match row {
        Some(row) => row.sort,
        None => Sort::Num,
    }
}

/// The length and the values of a datum of the module, after these data.
fn module_initial(
    alloc: Global,
    number: u32,
    sort: Sort,
    datum: &RawDatum<'_>,
    progress: &Progress,
) -> Result<Initial, TypeFault>
    ensures { Gives view_initial result (Values.initial (view_progress progress.now).names number None (Data.of_modules (view_progress progress.now)) sort (view_datum datum.now)) }
{
    let declared = site_at(alloc, &progress.scopes, number, None, datum.name.at);
    let known = Arrays {
        slots: &progress.known,
        locals: &[],
    };
    initial_of(&declared, &known, sort, datum)
}

/// Adds a CONST that is not an array to these data.
fn with_const(progress: Progress, initial: Initial) -> Result<Progress, TypeFault>
    ensures { Gives view_progress result (Ok (Data.with_const (view_progress progress) (view_initial initial))) }
{
    let next = number_after(progress.consts)?;
    let count = more_values(progress.values, 1)?;
    let Progress {
        scopes,
        consts,
        known,
        slots,
        pers,
        locals,
        ..
    } = progress;
    let scopes = keeping(scopes, consts, &initial.values)?;
    Ok(Progress {
        scopes,
        consts: next,
        known,
        slots,
        pers,
        locals,
        values: count,
    })
}

/// The row of a VAR or of a CONST array.
fn slot_row(
    alloc: Global,
    datum: &RawDatum<'_>,
    sort: Sort,
    initial: &Initial,
) -> Result<SlotRow, TypeFault>
    ensures { Gives view_slot result (Ok (slot_row (view_datum datum.now) sort (view_initial initial.now))) }
{
    let name = name_text(datum.name.text)?;
    let first = first_data(alloc, sort, initial.len, &initial.values)?;
    Ok(SlotRow {
        name,
        variable: !is_const(datum.kind),
        sort,
        len: initial.len,
        first,
    })
}

/// Adds a VAR or a CONST array to these data.
fn with_slot(
    alloc: Global,
    progress: Progress,
    datum: &RawDatum<'_>,
    sort: Sort,
    initial: Initial,
) -> Result<Progress, TypeFault>
    ensures { Gives view_progress result (Ok (Data.with_slot (view_progress progress) (view_datum datum.now) sort (view_initial initial))) }
{
    let row = slot_row(alloc, datum, sort, &initial)?;
    let Progress {
        scopes,
        consts,
        mut known,
        mut slots,
        pers,
        locals,
        values,
    } = progress;
    let values = more_values(values, width(initial.len))?;
    known.push(known_elements(is_const(datum.kind), initial.values))?;
    slots.push(row)?;
    Ok(Progress {
        scopes,
        consts,
        known,
        slots,
        pers,
        locals,
        values,
    })
}

/// The row of a PERS of this module; `own` says whether it is the task's own.
fn pers_row(
    number: u32,
    own: bool,
    datum: &RawDatum<'_>,
    sort: Sort,
    initial: Initial,
) -> Result<PersRow, TypeFault>
    ensures { Gives view_pers result (Ok (pers_row number own (view_datum datum.now) sort (view_initial initial))) }
{
    let name = name_text(datum.name.text)?;
    Ok(PersRow {
        name,
        module: number,
        at: datum.name.at,
        own,
        sort,
        len: initial.len,
        first: initial.values,
    })
}

/// Adds a PERS of this module to these data; `own` says whether it is the task's own.
fn with_pers(
    progress: Progress,
    number: u32,
    own: bool,
    datum: &RawDatum<'_>,
    sort: Sort,
    initial: Initial,
) -> Result<Progress, TypeFault>
    ensures { Gives view_progress result (Ok (Data.with_pers (view_progress progress) number own (view_datum datum.now) sort (view_initial initial))) }
{
    let Progress {
        scopes,
        consts,
        known,
        slots,
        mut pers,
        locals,
        values,
    } = progress;
    let values = more_values(values, width(initial.len))?;
    let row = pers_row(number, own, datum, sort, initial)?;
    pers.push(row)?;
    Ok(Progress {
        scopes,
        consts,
        known,
        slots,
        pers,
        locals,
        values,
    })
}

fn datum_const(
    alloc: Global,
    number: u32,
    datum: &RawDatum<'_>,
    progress: Progress,
) -> Result<Progress, TypeFault>
    ensures { Gives view_progress result (Data.datum_const number (view_datum datum.now) (view_progress progress)) }
{
    let sort = sort_in(progress.scopes.constant(progress.consts));
    let initial = module_initial(alloc, number, sort, datum, &progress)?;
    with_const(progress, initial)
}

fn datum_pers(
    alloc: Global,
    number: u32,
    own: bool,
    datum: &RawDatum<'_>,
    progress: Progress,
) -> Result<Progress, TypeFault>
    ensures { Gives view_progress result (Data.datum_pers number own (view_datum datum.now) (view_progress progress)) }
{
    let persistent = number_of(progress.pers.len())?;
    let sort = sort_in(progress.scopes.pers(persistent));
    let initial = module_initial(alloc, number, sort, datum, &progress)?;
    with_pers(progress, number, own, datum, sort, initial)
}

fn datum_slot(
    alloc: Global,
    number: u32,
    datum: &RawDatum<'_>,
    progress: Progress,
) -> Result<Progress, TypeFault>
    ensures { Gives view_progress result (Data.datum_slot number (view_datum datum.now) (view_progress progress)) }
{
    let slot = number_of(progress.slots.len())?;
    let sort = sort_in(progress.scopes.slot(slot));
    let initial = module_initial(alloc, number, sort, datum, &progress)?;
    with_slot(alloc, progress, datum, sort, initial)
}

/// Adds a datum of the module to these data; `own` says whether it is the task's own.
pub(crate) fn datum(
    alloc: Global,
    number: u32,
    own: bool,
    declared: &RawDatum<'_>,
    progress: Progress,
) -> Result<Progress, TypeFault>
    ensures { Gives view_progress result (Data.datum number own (view_datum declared.now) (view_progress progress)) }
{
    if is_scalar_const(declared) {
        return datum_const(alloc, number, declared, progress);
    }
    if is_pers(declared.kind) {
        return datum_pers(alloc, number, own, declared, progress);
    }
    datum_slot(alloc, number, declared, progress)
}
