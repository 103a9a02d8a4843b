ghost use Rattle.std.specs.Prelude.{◌≡◌, ◌<◌, nat_lt, map, length, slice_get, replicate, IfSome, IsTrue, ℕ};
ghost use Rattle.raw_trees.specs.Views.{view_module};
ghost use Rattle.data_scopes.specs.Naming.{names_of};
ghost use Rattle.data_scopes.specs.Called.{kind_of, local_of, param_of, params_of, data_count_of, result_of};
ghost use Rattle.data_scopes.specs.Rows.{outputs_of};
ghost use Rattle.rule_checks.specs.TypeChecks.{Gives};
ghost use Rattle.data_scopes.specs.Kept.{with_kept};
ghost use Rattle.data_scopes.specs.Meetings.{meetings_before};
ghost use Rattle.data_scopes.specs.Scopes.{meaning};
ghost use Rattle.rapid_model.specs.Sorts.{is_value_of};

use crate::data_row::{DatumRow, ParamRow};
use crate::filling::tables_of;
use crate::known::Known;
use crate::meant::Meant;
use crate::row_tables::RowTables;
use crate::rows::modules_rows;
use crate::tables::NameTables;
use crate::walking::modules_rules;
use rapid_model::{RoutineKind, SignalRow, Sort, Value};
use raw_trees::RawModule;
use rule_checks::{Spot, TypeFault};
use std::alloc::Global;
use std::marker::Model;

/// The names of a task's modules, and the values kept so far for their CONSTs.
#[derive(Drop)]
pub struct Scopes {
    tables: NameTables,
    kept: Vec<Option<Value>>,
    rows: RowTables,
    outputs: Vec<bool>,
    axes: u8,
}

impl Model for Scopes {
    ghost use Rattle.data_scopes.specs.Scopes.{Names};
    ghost use Rattle.data_scopes.specs.Kept.{AreKept};

    ghost Value = { Names };

    ghost view = { λ s. record { tables = s.tables; kept = s.kept.items; rows = s.rows; outputs = s.outputs.items; axes = s.axes } };

    ghost invariant = { λ s. AreKept s.tables s.rows.consts s.kept.items };
}

impl Scopes {
    /// The names of a task's modules. The error is the first broken rule, in text order through the modules, at a
    /// declared name or at the name of its type (RAPID Kernel, declarations and scope rules); or out of memory, also
    /// for a name of more than 32 characters.
    pub fn new(
        alloc: Global,
        modules: &[RawModule<'_>],
        known: &Known<'_>,
    ) -> Result<Scopes, TypeFault>
        ensures { Gives (λ scopes. scopes) result (names_of (map view_module modules.now) known.now.signals.now known.now.axes) }
    {
        let tables = tables_of(alloc, modules, known.signals)?;
        modules_rules(modules, &tables)?;
        let rows = modules_rows(alloc, &tables, modules)?;
        let kept = no_values(alloc, rows.constants())?;
        let outputs = outputs_of(alloc, known.signals)?;
        Ok(Scopes {
            tables,
            kept,
            rows,
            outputs,
            axes: known.axes,
        })
    }

    /// What the name means at the spot; `None` exactly if nothing with that name is visible (RAPID Kernel, scope
    /// rules). Names are case-insensitive.
    pub fn find(&self, spot: Spot, name: &[u8]) -> Option<Meant>
        ensures meaning { result ≡ meaning self.now.tables spot name.now }
        // A CONST that is found can be passed to `keep` and `kept`.
        ensures known { (constant : ℕ) → result ≡ Some (Meant.Const constant) → constant < length self.now.kept }
    {
        self.tables.meaning(spot, name)
    }

    /// Keeps the value of a constant; nothing else changes.
    pub fn keep(&mut self, constant: u32, value: Value)
        requires named { constant < length self.old.kept }
        // The value is of the constant's type.
        requires value { IfSome (slice_get self.old.rows.consts constant) (λ row. IsTrue (is_value_of row.sort value)) }
        ensures { self.new ≡ with_kept self.old constant value }
    {
        self.kept[constant as usize] = Some(value);
    }

    /// The kept value; `None` exactly if none was kept.
    pub fn kept(&self, constant: u32) -> Option<Value>
        requires named { constant < length self.now.kept }
        ensures { slice_get self.now.kept constant ≡ Some result }
    {
        match &self.kept[constant as usize] {
            Some(value) => Some(value.copy()),
            None => None,
        }
    }

    /// The VAR or CONST array of a module that a `Slot` means.
    pub fn slot(&self, number: u32) -> Option<DatumRow>
        ensures { result ≡ slice_get self.now.rows.slots number }
    {
        self.rows.slots.row(number)
    }

    /// How many of the modules' data before this one are meetings; past the last datum, how many there are in all. This
    /// is the number of the meeting that a `Slot` means (RAPID Instructions, WaitSyncTask).
    pub fn meetings_before(&self, number: u32) -> u32
        ensures { result ≡ meetings_before number self.now.rows.slots }
    {
        self.rows.slots.meetings_before(number)
    }

    /// The PERS with this number.
    pub fn pers(&self, number: u32) -> Option<DatumRow>
        ensures { result ≡ slice_get self.now.rows.pers number }
    {
        row_at(&self.rows.pers, number)
    }

    /// The CONST with this number, which is not an array.
    pub fn constant(&self, number: u32) -> Option<DatumRow>
        ensures row { result ≡ slice_get self.now.rows.consts number }
        // It can be passed to `keep` and `kept`.
        ensures named { IfSome result (λ _. number < length self.now.kept) }
    {
        self.rows.constant(number)
    }

    /// The datum at an index of a routine: its parameters come first, each as if passed by value, then its data.
    pub fn local(&self, routine: Option<u32>, index: u32) -> Option<DatumRow>
        ensures { result ≡ local_of self.now.rows routine index }
    {
        self.rows.local(routine, index)
    }

    /// The parameter at an index of a routine.
    pub fn param(&self, routine: Option<u32>, index: u32) -> Option<ParamRow>
        ensures { result ≡ param_of self.now.rows routine index }
    {
        self.rows.param(routine, index)
    }

    /// How many parameters and data a routine has.
    pub fn data_count(&self, routine: Option<u32>) -> usize
        ensures { result ≡ data_count_of self.now.rows routine }
    {
        self.rows.data_count(routine)
    }

    /// Whether a routine is a procedure, a function or a trap.
    pub fn routine_kind(&self, routine: u32) -> Option<RoutineKind>
        ensures { result ≡ kind_of self.now.rows routine }
    {
        self.rows.kind(routine)
    }

    /// The type of a function's result.
    pub fn routine_result(&self, routine: u32) -> Option<Sort>
        ensures { result ≡ result_of self.now.rows routine }
    {
        self.rows.result(routine)
    }

    /// The parameters of a routine; empty if there is no such routine.
    pub fn routine_params(&self, routine: u32) -> &[ParamRow]
        ensures { result.now ≡ params_of self.now.rows routine }
    {
        self.rows.params(routine)
    }

    /// Whether a signal is an output; `None` exactly if no signal has this number.
    pub fn output(&self, signal: u32) -> Option<bool>
        ensures { result ≡ slice_get self.now.outputs signal }
    {
        self.outputs.get(signal as usize).copied()
    }

    /// Whether the task has an arm.
    pub fn has_arm(&self) -> bool
        ensures { result ≡ nat_lt 0 self.now.axes }
    {
        self.axes > 0
    }
}

/// No values yet for `count` constants.
fn no_values(alloc: Global, count: usize) -> Result<Vec<Option<Value>>, TypeFault>
    ensures { Gives (λ v. v.items) result (Ok (replicate count None)) }
{
    let mut kept = Vec::new(alloc);
    for _constant in 0..count {
        kept.push(None)?;
    }
    Ok(kept)
}

/// The datum with this number.
fn row_at(rows: &[DatumRow], number: u32) -> Option<DatumRow>
    ensures { result ≡ slice_get rows.now number }
{
    rows.get(number as usize).copied()
}

/// For each signal, whether it is an output.
fn outputs_of(alloc: Global, signals: &[SignalRow]) -> Result<Vec<bool>, TypeFault>
    ensures { Gives (λ v. v.items) result (Ok (outputs_of signals.now)) }
{
    let mut outputs = Vec::new(alloc);
    for signal in signals {
        outputs.push(signal.output)?;
    }
    Ok(outputs)
}
