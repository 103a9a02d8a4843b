//! What each declaration means: its number among those of its kind, in the order of modules and text.

ghost use Rattle.std.specs.Prelude.{◌≡◌, ◌+◌, map, IfOk, IfErr, if◌then◌else◌};
ghost use Rattle.raw_trees.specs.Views.{view_datum, view_item, view_routine};
ghost use Rattle.data_scopes.specs.Numbers;
ghost use Rattle.rule_checks.specs.declared.fault.TypeFault.TheVariants.{Memory};

use crate::counts::Counts;
use crate::meant::Meant;
use rapid_model::Mode;
use raw_trees::{DatumKind, RawDatum, RawItem, RawRoutine};
use rule_checks::TypeFault;

/// The number after this one. Fails only as out of memory, also for a number past 32 bits.
pub fn number_after(number: u32) -> Result<u32, TypeFault>
    ensures ok { IfOk result (λ n. n ≡ number + 1) }
    ensures err { IfErr result (λ e. e ≡ Memory) }
{
    match number.checked_add(1) {
        Some(n) => Ok(n),
        None => Err(TypeFault::Memory),
    }
}

/// Whether data of the kind are CONSTs, which need an initial value and are never assigned (RAPID Kernel, constant
/// declarations).
pub fn is_const(kind: DatumKind) -> bool
    ensures { result ≡ Numbers.is_const kind }
{
    match kind {
        DatumKind::Const => true,
        DatumKind::Var => false,
        DatumKind::Pers => false,
    }
}

/// Whether data of the kind are PERSs, which tasks may share (RAPID Kernel, persistent declarations).
pub fn is_pers(kind: DatumKind) -> bool
    ensures { result ≡ Numbers.is_pers kind }
{
    match kind {
        DatumKind::Pers => true,
        DatumKind::Const => false,
        DatumKind::Var => false,
    }
}

/// Whether the datum is a CONST that is not an array: its name means a value that is kept by its number
/// (`Scopes::keep`), and it has no slot (RAPID Kernel, constant declarations).
pub fn is_scalar_const(datum: &RawDatum<'_>) -> bool
    ensures { result ≡ Numbers.is_scalar_const (view_datum datum.now) }
{
    is_const(datum.kind) && datum.len.is_none()
}

/// What a datum of a module means, given the counts before it.
pub(crate) fn datum_meant(counts: Counts, datum: &RawDatum<'_>) -> Meant
    ensures { result ≡ Numbers.datum_meant counts (view_datum datum.now) }
{
    if is_scalar_const(datum) {
        return Meant::Const(counts.consts);
    }
    if is_pers(datum.kind) {
        return Meant::Pers(counts.pers);
    }
    Meant::Slot(counts.slots)
}

/// The counts after the datum.
pub(crate) fn after_datum(counts: Counts, datum: &RawDatum<'_>) -> Result<Counts, TypeFault>
    ensures ok { IfOk result (λ c. c ≡ Numbers.after_datum counts (view_datum datum.now)) }
    ensures err { IfErr result (λ e. e ≡ Memory) }
{
    if is_scalar_const(datum) {
        let consts = number_after(counts.consts)?;
        return Ok(Counts {
            slots: counts.slots,
            pers: counts.pers,
            consts,
            routines: counts.routines,
        });
    }
    if is_pers(datum.kind) {
        let pers = number_after(counts.pers)?;
        return Ok(Counts {
            slots: counts.slots,
            pers,
            consts: counts.consts,
            routines: counts.routines,
        });
    }
    let slots = number_after(counts.slots)?;
    Ok(Counts {
        slots,
        pers: counts.pers,
        consts: counts.consts,
        routines: counts.routines,
    })
}

/// How many CONSTs there are after a datum of a routine.
pub(crate) fn after_local(consts: u32, datum: &RawDatum<'_>) -> Result<u32, TypeFault>
    ensures ok { IfOk result (λ n. n ≡ consts + (if Numbers.is_scalar_const (view_datum datum.now) then 1 else 0)) }
    ensures err { IfErr result (λ e. e ≡ Memory) }
{
    if is_scalar_const(datum) {
        return number_after(consts);
    }
    Ok(consts)
}

/// How many CONSTs there are after the data of a routine.
fn after_locals(consts: u32, locals: &[RawDatum<'_>]) -> Result<u32, TypeFault>
    ensures ok { IfOk result (λ n. n ≡ consts + Numbers.scalar_consts (map view_datum locals.now)) }
    ensures err { IfErr result (λ e. e ≡ Memory) }
{
    let mut after = consts;
    for datum in locals {
        after = after_local(after, datum)?;
    }
    Ok(after)
}

/// The counts after the routine.
pub(crate) fn after_routine(counts: Counts, routine: &RawRoutine<'_>) -> Result<Counts, TypeFault>
    ensures ok { IfOk result (λ c. c ≡ Numbers.after_routine counts (view_routine routine.now)) }
    ensures err { IfErr result (λ e. e ≡ Memory) }
{
    let consts = after_locals(counts.consts, &routine.locals)?;
    let routines = number_after(counts.routines)?;
    Ok(Counts {
        slots: counts.slots,
        pers: counts.pers,
        consts,
        routines,
    })
}

/// The counts after the item.
pub(crate) fn after_item(counts: Counts, item: &RawItem<'_>) -> Result<Counts, TypeFault>
    ensures ok { IfOk result (λ c. c ≡ Numbers.after_item counts (view_item item.now)) }
    ensures err { IfErr result (λ e. e ≡ Memory) }
{
    match item {
        RawItem::Datum { datum, .. } => after_datum(counts, datum),
        RawItem::Routine(routine) => after_routine(counts, routine),
    }
}

/// The counts after the items.
pub(crate) fn after_items(counts: Counts, items: &[RawItem<'_>]) -> Result<Counts, TypeFault>
    ensures ok { IfOk result (λ c. c ≡ Numbers.after_items counts (map view_item items.now)) }
    ensures err { IfErr result (λ e. e ≡ Memory) }
{
    let mut after = counts;
    for item in items {
        after = after_item(after, item)?;
    }
    Ok(after)
}

/// What a parameter at this index means: a variable of the routine, or a reference.
pub(crate) fn param_meant(index: u32, mode: Mode) -> Meant
    ensures { result ≡ Numbers.param_meant index mode }
{
    match mode {
        Mode::Value => Meant::Local(index),
        Mode::Inout => Meant::Ref(index),
        Mode::Var => Meant::Ref(index),
        Mode::Pers => Meant::Ref(index),
    }
}

/// What a datum of a routine means, at this index among its parameters and data, with this many CONSTs before it.
pub(crate) fn local_meant(index: u32, consts: u32, datum: &RawDatum<'_>) -> Meant
    ensures { result ≡ Numbers.local_meant index consts (view_datum datum.now) }
{
    if is_scalar_const(datum) {
        return Meant::Const(consts);
    }
    Meant::Local(index)
}
