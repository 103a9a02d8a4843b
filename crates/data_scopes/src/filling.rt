//! The first pass over a task's modules: each name goes into its scope.

ghost use Rattle.std.specs.Prelude.{◌≡◌, ◌++◌, [], map, length, OnOk, IfOk, IfErr, if◌then◌else◌};
ghost use Rattle.raw_trees.specs.Views.{view_datum, view_item, view_module, view_param, view_routine};
ghost use Rattle.data_scopes.specs.Numbers;
ghost use Rattle.data_scopes.specs.Scopes.{declare, loop_rows};
ghost use Rattle.rule_checks.specs.declared.fault.TypeFault.TheVariants.{Memory};

use crate::builtin_names::declare_predefined;
use crate::counts::Counts;
use crate::loop_row::LoopRow;
use crate::loops::loops_in_routine;
use crate::meant::Meant;
use crate::numbers::{
    after_item, after_items, after_local, datum_meant, local_meant, number_after, param_meant,
};
use crate::tables::NameTables;
use name_tables::NameTable;
use rapid_model::SignalRow;
use raw_trees::{RawDatum, RawItem, RawModule, RawParam, RawRoutine};
use rule_checks::TypeFault;
use std::alloc::Global;

/// Declares the parameters of a routine, and returns how many there are.
fn declare_params(params: &[RawParam<'_>], scope: &mut NameTable<Meant>) -> Result<u32, TypeFault>
    ensures ok { OnOk result (scope.new ≡ Numbers.declare_params 0 (map view_param params.now) scope.old) }
    ensures count { IfOk result (λ n. n ≡ length params.now) }
    ensures err { IfErr result (λ e. e ≡ Memory) }
{
    let mut index = 0;
    for param in params {
        scope.enter(param.name.text, param_meant(index, param.mode))?;
        index = number_after(index)?;
    }
    Ok(index)
}

/// Declares the data of a routine, given the index of the first and the number of CONSTs before.
fn declare_locals(
    first: u32,
    before: u32,
    locals: &[RawDatum<'_>],
    scope: &mut NameTable<Meant>,
) -> Result<(), TypeFault>
    ensures ok { OnOk result (scope.new ≡ Numbers.declare_locals first before (map view_datum locals.now) scope.old) }
    ensures err { IfErr result (λ e. e ≡ Memory) }
{
    let mut index = first;
    let mut consts = before;
    for datum in locals {
        scope.enter(datum.name.text, local_meant(index, consts, datum))?;
        index = number_after(index)?;
        consts = after_local(consts, datum)?;
    }
    Ok(())
}

/// The parameters and data of a routine.
fn routine_scope(
    alloc: Global,
    counts: Counts,
    routine: &RawRoutine<'_>,
) -> Result<NameTable<Meant>, TypeFault>
    ensures ok { IfOk result (λ s. s ≡ Numbers.routine_scope counts (view_routine routine.now)) }
    ensures err { IfErr result (λ e. e ≡ Memory) }
{
    let mut scope = NameTable::new(alloc);
    let index = declare_params(&routine.params, &mut scope)?;
    declare_locals(index, counts.consts, &routine.locals, &mut scope)?;
    Ok(scope)
}

/// What an item means, given the counts before it.
fn item_meant(counts: Counts, item: &RawItem<'_>) -> Meant
    ensures { result ≡ Numbers.item_meant counts (view_item item.now) }
{
    match item {
        RawItem::Datum { datum, .. } => datum_meant(counts, datum),
        RawItem::Routine(_) => Meant::Routine(counts.routines),
    }
}

fn is_local(item: &RawItem<'_>) -> bool
    ensures { result ≡ Numbers.is_local (view_item item.now) }
{
    match item {
        RawItem::Datum { local, .. } => *local,
        RawItem::Routine(routine) => routine.local,
    }
}

/// Declares an item.
fn declare_item(
    counts: Counts,
    item: &RawItem<'_>,
    scope: &mut NameTable<Meant>,
) -> Result<(), TypeFault>
    ensures ok { OnOk result (scope.new ≡ declare (Numbers.item_name (view_item item.now)).text (Numbers.item_meant counts (view_item item.now)) scope.old) }
    ensures err { IfErr result (λ e. e ≡ Memory) }
{
    let meant = item_meant(counts, item);
    match item {
        RawItem::Datum { datum, .. } => scope.enter(datum.name.text, meant)?,
        RawItem::Routine(routine) => scope.enter(routine.name.text, meant)?,
    }
    Ok(())
}

/// Declares the item if it is LOCAL.
fn declare_own(
    counts: Counts,
    item: &RawItem<'_>,
    scope: &mut NameTable<Meant>,
) -> Result<(), TypeFault>
    ensures ok { OnOk result (scope.new ≡ (let i = view_item item.now in if Numbers.is_local i then declare (Numbers.item_name i).text (Numbers.item_meant counts i) scope.old else scope.old)) }
    ensures err { IfErr result (λ e. e ≡ Memory) }
{
    if is_local(item) {
        return declare_item(counts, item, scope);
    }
    Ok(())
}

/// Declares the item if it is not LOCAL.
fn declare_shared(
    counts: Counts,
    item: &RawItem<'_>,
    scope: &mut NameTable<Meant>,
) -> Result<(), TypeFault>
    ensures ok { OnOk result (scope.new ≡ (let i = view_item item.now in if Numbers.is_local i then scope.old else declare (Numbers.item_name i).text (Numbers.item_meant counts i) scope.old)) }
    ensures err { IfErr result (λ e. e ≡ Memory) }
{
    if is_local(item) {
        return Ok(());
    }
    declare_item(counts, item, scope)
}

/// The LOCAL items of a module.
fn own_items(
    alloc: Global,
    before: Counts,
    items: &[RawItem<'_>],
) -> Result<NameTable<Meant>, TypeFault>
    ensures ok { IfOk result (λ s. s ≡ Numbers.own_items before (map view_item items.now) []) }
    ensures err { IfErr result (λ e. e ≡ Memory) }
{
    let mut scope = NameTable::new(alloc);
    let mut counts = before;
    for item in items {
        declare_own(counts, item, &mut scope)?;
        counts = after_item(counts, item)?;
    }
    Ok(scope)
}

/// Declares the items of a module that are not LOCAL.
fn declare_items(
    before: Counts,
    items: &[RawItem<'_>],
    scope: &mut NameTable<Meant>,
) -> Result<(), TypeFault>
    ensures ok { OnOk result (scope.new ≡ Numbers.task_items before (map view_item items.now) scope.old) }
    ensures err { IfErr result (λ e. e ≡ Memory) }
{
    let mut counts = before;
    for item in items {
        declare_shared(counts, item, scope)?;
        counts = after_item(counts, item)?;
    }
    Ok(())
}

/// Appends the scope of a routine.
fn push_scope(
    alloc: Global,
    counts: Counts,
    item: &RawItem<'_>,
    inner: &mut Vec<NameTable<Meant>>,
) -> Result<(), TypeFault>
    ensures ok { OnOk result (inner.new.items ≡ inner.old.items ++ Numbers.item_scopes counts (view_item item.now)) }
    ensures err { IfErr result (λ e. e ≡ Memory) }
{
    if let RawItem::Routine(routine) = item {
        inner.push(routine_scope(alloc, counts, routine)?)?;
    }
    Ok(())
}

/// Appends the scopes of the routines of a module.
fn push_scopes(
    alloc: Global,
    before: Counts,
    items: &[RawItem<'_>],
    inner: &mut Vec<NameTable<Meant>>,
) -> Result<(), TypeFault>
    ensures ok { OnOk result (inner.new.items ≡ inner.old.items ++ Numbers.routine_scopes before (map view_item items.now)) }
    ensures err { IfErr result (λ e. e ≡ Memory) }
{
    let mut counts = before;
    for item in items {
        push_scope(alloc, counts, item, inner)?;
        counts = after_item(counts, item)?;
    }
    Ok(())
}

/// Appends the FORs of a routine.
fn push_rows(
    alloc: Global,
    item: &RawItem<'_>,
    loops: &mut Vec<Vec<LoopRow>>,
) -> Result<(), TypeFault>
    ensures ok { OnOk result (loop_rows loops.new.items ≡ loop_rows loops.old.items ++ Numbers.item_loops (view_item item.now)) }
    ensures err { IfErr result (λ e. e ≡ Memory) }
{
    if let RawItem::Routine(routine) = item {
        loops.push(loops_in_routine(alloc, routine)?)?;
    }
    Ok(())
}

/// Appends the FORs of the routines of a module.
fn push_items_rows(
    alloc: Global,
    items: &[RawItem<'_>],
    loops: &mut Vec<Vec<LoopRow>>,
) -> Result<(), TypeFault>
    ensures ok { OnOk result (loop_rows loops.new.items ≡ loop_rows loops.old.items ++ Numbers.items_loops (map view_item items.now)) }
    ensures err { IfErr result (λ e. e ≡ Memory) }
{
    for item in items {
        push_rows(alloc, item, loops)?;
    }
    Ok(())
}

/// Declares the signals.
fn declare_signals(signals: &[SignalRow], scope: &mut NameTable<Meant>) -> Result<(), TypeFault>
    ensures ok { OnOk result (scope.new ≡ Numbers.signal_scope 0 signals.now scope.old) }
    ensures err { IfErr result (λ e. e ≡ Memory) }
{
    let mut number = 0;
    for row in signals {
        scope.enter(row.name.bytes(), Meant::Signal(number))?;
        number = number_after(number)?;
    }
    Ok(())
}

/// The signals.
fn signal_scope(alloc: Global, signals: &[SignalRow]) -> Result<NameTable<Meant>, TypeFault>
    ensures ok { IfOk result (λ s. s ≡ Numbers.signal_scope 0 signals.now []) }
    ensures err { IfErr result (λ e. e ≡ Memory) }
{
    let mut scope = NameTable::new(alloc);
    declare_signals(signals, &mut scope)?;
    Ok(scope)
}

/// The tables of these scopes. The signals and the predefined names come after the items.
fn with_outside(
    alloc: Global,
    items: NameTable<Meant>,
    own: Vec<NameTable<Meant>>,
    inner: Vec<NameTable<Meant>>,
    loops: Vec<Vec<LoopRow>>,
    signals: &[SignalRow],
) -> Result<NameTables, TypeFault>
    ensures ok { IfOk result (λ t. t ≡ record { task = items; own = own.items; inner = inner.items; loops = loop_rows loops.items; signals = Numbers.signal_scope 0 signals.now [] }) }
    ensures err { IfErr result (λ e. e ≡ Memory) }
{
    let count = items.len();
    let mut shared = items;
    declare_signals(signals, &mut shared)?;
    declare_predefined(&mut shared)?;
    let signals = signal_scope(alloc, signals)?;
    Ok(NameTables::new(shared, count, own, inner, loops, signals))
}

/// The names of a task's modules, with these signals.
pub(crate) fn tables_of(
    alloc: Global,
    modules: &[RawModule<'_>],
    signals: &[SignalRow],
) -> Result<NameTables, TypeFault>
    ensures ok { IfOk result (λ t. t ≡ Numbers.tables_of (map view_module modules.now) signals.now) }
    ensures err { IfErr result (λ e. e ≡ Memory) }
{
    let mut counts = Counts::new();
    let mut task = NameTable::new(alloc);
    let mut own = Vec::new(alloc);
    let mut inner = Vec::new(alloc);
    let mut loops = Vec::new(alloc);
    for unit in modules {
        declare_items(counts, &unit.items, &mut task)?;
        own.push(own_items(alloc, counts, &unit.items)?)?;
        push_scopes(alloc, counts, &unit.items, &mut inner)?;
        push_items_rows(alloc, &unit.items, &mut loops)?;
        counts = after_items(counts, &unit.items)?;
    }
    with_outside(alloc, task, own, inner, loops, signals)
}
