ghost use Rattle.std.specs.Prelude.{◌≡◌, length, slice_get};
ghost use Rattle.data_scopes.specs.Called.{kind_of, local_of, param_of, params_of, own_row, data_count_in, data_count_of, result_of, value_row};

use crate::data_row::{DatumRow, ParamRow};
use crate::routine_entry::RoutineEntry;
use crate::slots::Slots;
use rapid_model::{RoutineKind, Sort};
use std::marker::Model;

/// The declarations by their numbers: the CONSTs that are not arrays, the VARs and CONST arrays of the modules, the
/// PERSs, and the routines.
#[derive(Drop)]
pub(crate) struct RowTables {
    pub(crate) consts: Vec<DatumRow>,
    pub(crate) slots: Slots,
    pub(crate) pers: Vec<DatumRow>,
    pub(crate) routines: Vec<RoutineEntry>,
}

impl Model for RowTables {
    ghost use Rattle.data_scopes.specs.Scopes.{Rows};

    ghost Value = { Rows };

    ghost view = { λ r. record { consts = r.consts.items; slots = r.slots; pers = r.pers.items; routines = r.routines.items } };
}

impl RowTables {
    /// How many CONSTs are not arrays.
    pub(crate) fn constants(&self) -> usize
        ensures { result ≡ length self.now.consts }
    {
        self.consts.len()
    }

    /// The CONST with this number, which is not an array.
    pub(crate) fn constant(&self, number: u32) -> Option<DatumRow>
        ensures { result ≡ slice_get self.now.consts number }
    {
        self.consts.get(number as usize).copied()
    }

    /// The word that a routine starts with.
    pub(crate) fn kind(&self, routine: u32) -> Option<RoutineKind>
        ensures { result ≡ kind_of self.now routine }
    {
        let entry = self.routines.get(routine as usize)?;
        Some(entry.kind)
    }

    /// The type of a function's result.
    pub(crate) fn result(&self, routine: u32) -> Option<Sort>
        ensures { result ≡ result_of self.now routine }
    {
        let entry = self.routines.get(routine as usize)?;
        entry.result
    }

    /// The parameters of a routine; empty if there is no such routine.
    pub(crate) fn params(&self, routine: u32) -> &[ParamRow]
        ensures { result.now ≡ params_of self.now routine }
    {
        match self.routines.get(routine as usize) {
            Some(entry) => &entry.params,
            None => &[],
        }
    }

    /// The datum at an index of a routine: its parameters come first, then its data.
    pub(crate) fn local(&self, routine: Option<u32>, index: u32) -> Option<DatumRow>
        ensures { result ≡ local_of self.now routine index }
    {
        let entry = self.routines.get(routine? as usize)?;
        own_row(entry, index as usize)
    }

    /// The parameter at an index of a routine.
    pub(crate) fn param(&self, routine: Option<u32>, index: u32) -> Option<ParamRow>
        ensures { result ≡ param_of self.now routine index }
    {
        self.params(routine?).get(index as usize).copied()
    }

    /// How many parameters and data a routine has.
    pub(crate) fn data_count(&self, routine: Option<u32>) -> usize
        ensures { result ≡ data_count_of self.now routine }
    {
        match routine {
            Some(number) => self.data_count_in(number),
            None => 0,
        }
    }

    fn data_count_in(&self, routine: u32) -> usize
        ensures { result ≡ data_count_in (slice_get self.now.routines routine) }
    {
        match self.routines.get(routine as usize) {
            Some(entry) => entry.params.len() + entry.locals.len(),
            None => 0,
        }
    }
}

/// The datum at an index: the parameters come first, then the data.
fn own_row(entry: &RoutineEntry, index: usize) -> Option<DatumRow>
    ensures { result ≡ own_row entry.now index }
{
    match entry.params.get(index) {
        Some(param) => Some(value_row(*param)),
        None => entry.locals.get(index - entry.params.len()).copied(),
    }
}

/// A by-value parameter as a datum.
fn value_row(param: ParamRow) -> DatumRow
    ensures { result ≡ value_row param }
{
    DatumRow {
        sort: param.sort,
        array: false,
        since: None,
    }
}
