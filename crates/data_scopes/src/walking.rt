//! The second pass over a task's modules: the first broken rule.

ghost use Rattle.std.specs.Prelude.{◌≡◌, [], map, option_map};
ghost use Rattle.std.specs.Str.{str_eq_ignore_ascii_case};
ghost use Rattle.rapid_model.specs.Names.{is_among};
ghost use Rattle.raw_trees.specs.Views.{view_datum, view_item, view_module, view_name, view_param, view_routine};
ghost use Rattle.data_scopes.specs.Declarations;
ghost use Rattle.data_scopes.specs.Numbers.{no_counts};
ghost use Rattle.rule_checks.specs.TypeChecks.{Gives};

use crate::checking::{datum_sort, item_name_rules, sort_at, spot_of};
use crate::counts::Counts;
use crate::meant::Meant;
use crate::numbers::{
    after_item, after_items, after_local, datum_meant, local_meant, number_after, param_meant,
};
use crate::own::is_own;
use crate::tables::NameTables;
use name_tables::NameKey;
use rapid_model::{Mode, Sort, has_values};
use raw_trees::{RawDatum, RawItem, RawModule, RawName, RawParam, RawRoutine};
use rule_checks::{TypeFault, TypeRule, must};

/// The rules for a datum of a module.
fn datum_rules(
    tables: &NameTables,
    number: u32,
    local: bool,
    counts: Counts,
    datum: &RawDatum<'_>,
) -> Result<(), TypeFault>
    ensures { Gives (λ u. u) result (Declarations.datum_rules tables.now number local counts (view_datum datum.now)) }
{
    datum_sort(tables, number, None, datum)?;
    let spot = spot_of(number, None, &datum.name);
    item_name_rules(tables, spot, local, datum_meant(counts, datum), &datum.name)
}

/// A parameter passed by value has a type with values.
fn takes_sort(mode: Mode, sort: Sort) -> bool
    ensures { result ≡ Declarations.takes_sort mode sort }
{
    match mode {
        Mode::Value => has_values(sort),
        Mode::Inout => true,
        Mode::Var => true,
        Mode::Pers => true,
    }
}

/// The rules for the parameter at this index of a routine.
fn param_rules(
    tables: &NameTables,
    number: u32,
    routine: u32,
    index: u32,
    param: &RawParam<'_>,
) -> Result<(), TypeFault>
    ensures { Gives (λ u. u) result (Declarations.param_rules tables.now number routine index (view_param param.now)) }
{
    let spot = spot_of(number, Some(routine), &param.sort);
    let sort = sort_at(tables, spot, &param.sort)?;
    must(takes_sort(param.mode, sort), spot, TypeRule::TypeClash)?;
    let meant = tables.inner(routine, &NameKey::new(param.name.text));
    let holds = is_own(param_meant(index, param.mode), meant);
    must(
        holds,
        spot_of(number, Some(routine), &param.name),
        TypeRule::NameTwice,
    )
}

/// The rules for the parameters of a routine; returns how many there are.
fn params_rules(
    tables: &NameTables,
    number: u32,
    routine: u32,
    params: &[RawParam<'_>],
) -> Result<u32, TypeFault>
    ensures { Gives (λ n. n) result (Declarations.counted (map view_param params.now) (Declarations.params_rules tables.now number routine 0 (map view_param params.now))) }
{
    let mut index = 0;
    for param in params {
        param_rules(tables, number, routine, index, param)?;
        index = number_after(index)?;
    }
    Ok(index)
}

/// The rules for the datum at this index of a routine, with this many CONSTs before it.
fn local_rules(
    tables: &NameTables,
    number: u32,
    routine: u32,
    index: u32,
    consts: u32,
    datum: &RawDatum<'_>,
) -> Result<(), TypeFault>
    ensures { Gives (λ u. u) result (Declarations.local_rules tables.now number routine index consts (view_datum datum.now)) }
{
    datum_sort(tables, number, Some(routine), datum)?;
    let meant = tables.inner(routine, &NameKey::new(datum.name.text));
    let holds = is_own(local_meant(index, consts, datum), meant);
    must(
        holds,
        spot_of(number, Some(routine), &datum.name),
        TypeRule::NameTwice,
    )
}

/// The rules for the data of a routine, given the index of the first and the number of CONSTs before.
fn locals_rules(
    tables: &NameTables,
    number: u32,
    routine: u32,
    first: u32,
    before: u32,
    locals: &[RawDatum<'_>],
) -> Result<(), TypeFault>
    ensures { Gives (λ u. u) result (Declarations.locals_rules tables.now number routine first before (map view_datum locals.now)) }
{
    let mut index = first;
    let mut consts = before;
    for datum in locals {
        local_rules(tables, number, routine, index, consts, datum)?;
        index = number_after(index)?;
        consts = after_local(consts, datum)?;
    }
    Ok(())
}

/// The rules for the type of a function's result.
fn result_rules(
    tables: &NameTables,
    number: u32,
    routine: u32,
    name: &Option<RawName<'_>>,
) -> Result<(), TypeFault>
    ensures { Gives (λ u. u) result (Declarations.result_rules tables.now number routine (option_map view_name name.now)) }
{
    match name {
        None => Ok(()),
        Some(name) => {
            let spot = spot_of(number, Some(routine), name);
            let sort = sort_at(tables, spot, name)?;
            must(has_values(sort), spot, TypeRule::TypeClash)
        }
    }
}

/// The rules for a routine.
fn routine_rules(
    tables: &NameTables,
    number: u32,
    counts: Counts,
    routine: &RawRoutine<'_>,
) -> Result<(), TypeFault>
    ensures { Gives (λ u. u) result (Declarations.routine_rules tables.now number counts (view_routine routine.now)) }
{
    let own = Meant::Routine(counts.routines);
    result_rules(tables, number, counts.routines, &routine.result)?;
    let spot = spot_of(number, None, &routine.name);
    item_name_rules(tables, spot, routine.local, own, &routine.name)?;
    let index = params_rules(tables, number, counts.routines, &routine.params)?;
    locals_rules(
        tables,
        number,
        counts.routines,
        index,
        counts.consts,
        &routine.locals,
    )
}

/// The rules for an item of a module.
fn item_rules(
    tables: &NameTables,
    number: u32,
    counts: Counts,
    item: &RawItem<'_>,
) -> Result<(), TypeFault>
    ensures { Gives (λ u. u) result (Declarations.item_rules tables.now number counts (view_item item.now)) }
{
    match item {
        RawItem::Datum { local, datum, .. } => datum_rules(tables, number, *local, counts, datum),
        RawItem::Routine(routine) => routine_rules(tables, number, counts, routine),
    }
}

/// The rules for the items of a module.
fn items_rules(
    tables: &NameTables,
    number: u32,
    before: Counts,
    items: &[RawItem<'_>],
) -> Result<(), TypeFault>
    ensures { Gives (λ u. u) result (Declarations.items_rules tables.now number before (map view_item items.now)) }
{
    let mut counts = before;
    for item in items {
        item_rules(tables, number, counts, item)?;
        counts = after_item(counts, item)?;
    }
    Ok(())
}

/// Whether the module has the name, case-insensitively.
fn is_named(unit: &RawModule<'_>, name: &[u8]) -> bool
    ensures { result ≡ str_eq_ignore_ascii_case name.now (view_module unit.now).name.text }
{
    name.eq_ignore_ascii_case(unit.name.text)
}

/// Whether the name is among those of the modules.
fn is_among(name: &[u8], modules: &[RawModule<'_>]) -> bool
    ensures { result ≡ is_among name.now (Declarations.names (map view_module modules.now)) }
{
    for other in modules {
        if is_named(other, name) {
            return true;
        }
    }
    false
}

/// The rules for a module, after these.
fn module_rules(
    unit: &RawModule<'_>,
    tables: &NameTables,
    number: u32,
    before: &[RawModule<'_>],
    counts: Counts,
) -> Result<(), TypeFault>
    ensures { Gives (λ u. u) result (Declarations.module_rules tables.now number (Declarations.names (map view_module before.now)) counts (view_module unit.now)) }
{
    let holds = !is_among(unit.name.text, before);
    must(
        holds,
        spot_of(number, None, &unit.name),
        TypeRule::NameTwice,
    )?;
    items_rules(tables, number, counts, &unit.items)
}

/// The rules for all modules.
pub(crate) fn modules_rules(modules: &[RawModule<'_>], tables: &NameTables) -> Result<(), TypeFault>
    ensures { Gives (λ u. u) result (Declarations.modules_rules tables.now 0 [] no_counts (map view_module modules.now)) }
{
    let mut number = 0;
    let mut counts = Counts::new();
    for (index, unit) in modules.iter().enumerate() {
        module_rules(unit, tables, number, &modules[..index], counts)?;
        number = number_after(number)?;
        counts = after_items(counts, &unit.items)?;
    }
    Ok(())
}
