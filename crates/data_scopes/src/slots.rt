//! The VARs and CONST arrays of the modules, and the meetings among them.

ghost use Rattle.std.specs.Prelude.{◌≡◌, ◌+◌, ◌++◌, ◌∷◌, [], Ok, Some, slice_get, IfOk, IfErr, if◌then◌else◌};
ghost use Rattle.data_scopes.specs.Meetings;
ghost use Rattle.rule_checks.specs.TypeChecks.{Gives};
ghost use Rattle.rule_checks.specs.declared.fault.TypeFault.TheVariants.{Memory};

use crate::data_row::DatumRow;
use crate::numbers::number_after;
use crate::sorts::same_sort;
use rapid_model::Sort;
use rule_checks::TypeFault;
use std::alloc::Global;
use std::marker::Model;

/// The VARs and CONST arrays of the modules by number; for each, how many of those before it are meetings; and how many
/// meetings there are in all. Contracts see the list of the data.
#[derive(Drop)]
pub(crate) struct Slots {
    rows: Vec<DatumRow>,
    before: Vec<u32>,
    meetings: u32,
}

impl Model for Slots {
    ghost use Rattle.std.specs.Prelude.{List};
    ghost use Rattle.data_scopes.specs.declared.data_row.DatumRow.{DatumRow};
    ghost use Rattle.data_scopes.specs.Meetings.{AreCounted};

    ghost Value = { List DatumRow };

    ghost view = { λ s. s.rows.items };

    // The kept numbers count the meetings among the data.
    ghost invariant = { λ s. AreCounted s.rows.items s.before.items s.meetings };
}

/// Whether a datum of a module is a meeting, a VAR of type syncident (RAPID Instructions, WaitSyncTask).
pub fn is_meeting(row: Option<DatumRow>) -> bool
    ensures { result ≡ Meetings.is_meeting row }
{
    match row {
        None => false,
        Some(row) => same_sort(row.sort, Sort::SyncIdent),
    }
}

/// How many meetings there are after one more datum. Fails only as out of memory, also for a count past 32 bits.
fn meetings_with(meetings: u32, row: DatumRow) -> Result<u32, TypeFault>
    ensures ok { IfOk result (λ n. n ≡ meetings + (if Meetings.is_meeting (Some row) then 1 else 0)) }
    ensures err { IfErr result (λ e. e ≡ Memory) }
{
    if is_meeting(Some(row)) {
        return number_after(meetings);
    }
    Ok(meetings)
}

impl Slots {
    /// No data.
    pub(crate) fn new(alloc: Global) -> Slots
        ensures { result ≡ [] }
    {
        Slots {
            rows: Vec::new(alloc),
            before: Vec::new(alloc),
            meetings: 0,
        }
    }

    /// The datum with this number.
    pub(crate) fn row(&self, number: u32) -> Option<DatumRow>
        ensures { result ≡ slice_get self.now number }
    {
        self.rows.get(number as usize).copied()
    }

    /// How many of the data before this number are meetings; past the end, how many there are in all.
    pub(crate) fn meetings_before(&self, number: u32) -> u32
        ensures { result ≡ Meetings.meetings_before number self.now }
    {
        match self.before.get(number as usize) {
            Some(count) => *count,
            None => self.meetings,
        }
    }

    /// Appends a datum. Fails only as out of memory, also if the count of meetings exceeds 32 bits.
    pub(crate) fn with_row(self, row: DatumRow) -> Result<Slots, TypeFault>
        ensures { Gives (λ slots. slots) result (Ok (self ++ row ∷ [])) }
    {
        let Slots {
            rows,
            before,
            meetings,
        } = self;
        let mut rows = rows;
        let mut before = before;
        let more = meetings_with(meetings, row)?;
        before.push(meetings)?;
        rows.push(row)?;
        Ok(Slots {
            rows,
            before,
            meetings: more,
        })
    }
}
