//! Data of routines.

ghost use Rattle.std.specs.Prelude.{◌≡◌, [], None, Some, length, map, replicate, IfOk, IfErr};
ghost use Rattle.raw_trees.specs.Views.{view_datum, view_routine};
ghost use Rattle.typed_trees.specs.Views.{view_local};
ghost use Rattle.constant_meaning.specs.Constants.{items_of};
ghost use Rattle.data_scopes.specs.Called.{local_of};
ghost use Rattle.rule_checks.specs.TypeChecks.{Gives};
ghost use Rattle.rule_checks.specs.declared.fault.TypeFault.TheVariants.{Memory};
ghost use Rattle.decl_types.specs.Data;
ghost use Rattle.decl_types.specs.Parts.{view_initial, view_inner, with_inner_const, with_inner_row};
ghost use Rattle.decl_types.specs.Values;
ghost use Rattle.decl_types.specs.Views.{view_progress};

use crate::datum::sort_in;
use crate::first_data::first_data;
use crate::initial::{Initial, initial_of};
use crate::inner::Inner;
use crate::known::{keeping, known_elements};
use crate::progress::Progress;
use crate::sites::site_at;
use constant_meaning::Arrays;
use data_scopes::{Scopes, is_const, is_scalar_const, number_after};
use named_data::{name_text, number_of};
use rapid_model::{Sort, Value};
use raw_trees::{RawDatum, RawRoutine};
use rule_checks::TypeFault;
use std::alloc::Global;
use typed_trees::LocalRow;

/// The row of a datum of a routine.
fn inner_row(
    alloc: Global,
    datum: &RawDatum<'_>,
    sort: Sort,
    initial: &Initial,
) -> Result<LocalRow, TypeFault>
    ensures { Gives view_local result (Ok (Data.inner_row (view_datum datum.now) sort (view_initial initial.now))) }
{
    let name = name_text(datum.name.text)?;
    let first = first_data(alloc, sort, initial.len, &initial.values)?;
    Ok(LocalRow {
        name,
        variable: !is_const(datum.kind),
        sort,
        len: initial.len,
        first,
    })
}

/// Keeps the value of a CONST that is not an array.
fn with_inner_const(inner: Inner, values: &Option<Vec<Value>>) -> Result<Inner, TypeFault>
    ensures { Gives view_inner result (Ok (with_inner_const (view_inner inner) (items_of values.now))) }
{
    let consts = number_after(inner.consts)?;
    let Inner {
        scopes,
        consts: constant,
        known,
        rows,
    } = inner;
    let scopes = keeping(scopes, constant, values)?;
    Ok(Inner {
        scopes,
        consts,
        known,
        rows,
    })
}

/// Adds the row of a datum, and its elements if they are known, to these data.
fn with_inner_row(
    inner: Inner,
    row: LocalRow,
    constant: bool,
    initial: Initial,
) -> Result<Inner, TypeFault>
    ensures { Gives view_inner result (Ok (with_inner_row (view_inner inner) (view_local row) constant (view_initial initial))) }
{
    let Inner {
        scopes,
        consts,
        mut known,
        mut rows,
    } = inner;
    known.push(known_elements(constant, initial.values))?;
    rows.push(row)?;
    Ok(Inner {
        scopes,
        consts,
        known,
        rows,
    })
}

/// Adds a datum of this type to these data of its routine.
fn with_local(
    alloc: Global,
    inner: Inner,
    datum: &RawDatum<'_>,
    sort: Sort,
    initial: Initial,
) -> Result<Inner, TypeFault>
    ensures { Gives view_inner result (Ok (Data.with_local (view_inner inner) (view_datum datum.now) sort (view_initial initial))) }
{
    let row = inner_row(alloc, datum, sort, &initial)?;
    if is_scalar_const(datum) {
        let inner = with_inner_const(inner, &initial.values)?;
        return with_inner_row(inner, row, false, initial);
    }
    with_inner_row(inner, row, is_const(datum.kind), initial)
}

/// The type of the next datum of this routine after these data. Fails only if an allocation fails.
fn next_sort(routine: u32, inner: &Inner) -> Result<Sort, TypeFault>
    ensures ok { IfOk result (λ sort. sort ≡ Data.sort_in (local_of (view_inner inner.now).names.rows (Some routine) (length (view_inner inner.now).known))) }
    ensures err { IfErr result (λ e. e ≡ Memory) }
{
    let place = number_of(inner.known.len())?;
    Ok(sort_in(inner.scopes.local(Some(routine), place)))
}

/// Adds a datum of this routine of the module, given the elements of the modules' CONST arrays.
fn local(
    alloc: Global,
    number: u32,
    routine: u32,
    slots: &[Option<Vec<Value>>],
    datum: &RawDatum<'_>,
    inner: Inner,
) -> Result<Inner, TypeFault>
    ensures { Gives view_inner result (Data.local number routine (map items_of slots.now) (view_datum datum.now) (view_inner inner)) }
{
    let sort = next_sort(routine, &inner)?;
    let initial = local_initial(alloc, number, routine, slots, sort, datum, &inner)?;
    with_local(alloc, inner, datum, sort, initial)
}

/// The length and the values of a datum of this routine of the module, after these data.
fn local_initial(
    alloc: Global,
    number: u32,
    routine: u32,
    slots: &[Option<Vec<Value>>],
    sort: Sort,
    datum: &RawDatum<'_>,
    inner: &Inner,
) -> Result<Initial, TypeFault>
    ensures { Gives view_initial result (Values.initial (view_inner inner.now).names number (Some routine) (record { slots = map items_of slots.now; locals = (view_inner inner.now).known }) sort (view_datum datum.now)) }
{
    let declared = site_at(alloc, &inner.scopes, number, Some(routine), datum.name.at);
    let known = Arrays {
        slots,
        locals: &inner.known,
    };
    initial_of(&declared, &known, sort, datum)
}

/// The data of a routine of the module, after its parameters.
fn locals(
    alloc: Global,
    number: u32,
    routine: u32,
    slots: &[Option<Vec<Value>>],
    declared: &[RawDatum<'_>],
    entered: Inner,
) -> Result<Inner, TypeFault>
    ensures { Gives view_inner result (Data.locals number routine (map items_of slots.now) (map view_datum declared.now) (view_inner entered)) }
{
    let mut inner = entered;
    for datum in declared {
        inner = local(alloc, number, routine, slots, datum, inner)?;
    }
    Ok(inner)
}

/// No values are known of `count` parameters.
fn unknown(alloc: Global, count: usize) -> Result<Vec<Option<Vec<Value>>>, TypeFault>
    ensures { Gives (λ v. map items_of v.items) result (Ok (replicate count None)) }
{
    let mut known = Vec::new(alloc);
    for _parameter in 0..count {
        known.push(None)?;
    }
    Ok(known)
}

/// Parameters come before the data, and are never known. There is room for this many rows.
fn entered(
    alloc: Global,
    scopes: Scopes,
    consts: u32,
    count: usize,
    room: usize,
) -> Result<Inner, TypeFault>
    ensures { Gives view_inner result (Ok (record { names = scopes; consts = consts; known = replicate count None; rows = [] })) }
{
    let known = unknown(alloc, count)?;
    let rows = Vec::with_capacity(alloc, room)?;
    Ok(Inner {
        scopes,
        consts,
        known,
        rows,
    })
}

/// Adds a routine of the module to these data.
pub(crate) fn routine(
    alloc: Global,
    number: u32,
    declared: &RawRoutine<'_>,
    progress: Progress,
) -> Result<Progress, TypeFault>
    ensures { Gives view_progress result (Data.routine number (view_routine declared.now) (view_progress progress)) }
{
    let Progress {
        scopes,
        consts,
        known,
        slots,
        pers,
        locals: mut routines,
        values,
    } = progress;
    let own = number_of(routines.len())?;
    let count = declared.params.len();
    let inner = entered(alloc, scopes, consts, count, declared.locals.len())?;
    let inner = locals(alloc, number, own, &known, &declared.locals, inner)?;
    let Inner {
        scopes,
        consts,
        rows,
        ..
    } = inner;
    routines.push(rows)?;
    Ok(Progress {
        scopes,
        consts,
        known,
        slots,
        pers,
        locals: routines,
        values,
    })
}
