//! The audit of a printed history.

ghost use Rattle.std.specs.Prelude.{◌≡◌, ◌≤◌, ℕ, List, [], ◌∷◌, All, IfSome, length, map};
ghost use Rattle.typed_trees.specs.Views.{view_tree};
ghost use Rattle.rapid_limits.specs.declared.TheConstants.{HISTORY_BYTES};
ghost use Rattle.controller.specs.Accepted.{audits};
ghost use Rattle.controller.specs.Answered.{AnswersHistory, AuditsOrMemory, PrintsBy, RanNothing};
ghost use Rattle.run_lines.specs.Audits.{audit_line, audit_status};
ghost use Rattle.controller.specs.Done.{IsDoneFault};
ghost use Rattle.cell_loading.specs.Loaded.{made_of};
ghost use Rattle.controller.specs.Ready.{HasScript};
ghost use Rattle.sink_lines.specs.Printed.{sunk};

use crate::report::{Report, refuse};
use accepted_cells::{
    accepted_code_suits_its_task, accepted_tasks_ask_as_their_code, accepted_tasks_ask_well,
};
use cell_loading::{CheckedCell, Refused};
use cell_runs::{Audited, audit_history};
use history_audit::AuditFault;
use history_text::{HistoryFault, names_of, read_history};
use outside::Sink;
use rapid_model::{Event, Fate};
use run_lines::print_audit;
use std::alloc::Global;
use std::marker::Brand;

/// Audits the history that a text spells with an accepted cell, and reports it; or reports the first line with which the
/// lines start no history of the cell.
pub(crate) fn audit_cell<O: Sink, E: Sink>(
    alloc: Global,
    accepted: CheckedCell,
    text: &[u8],
    out: &mut O,
    err: &mut E,
) -> Report
    requires script { HasScript (made_of accepted) }
    requires within { length text.now ≤ HISTORY_BYTES }
    ensures answers { (names : List (List ℕ)) → AnswersHistory (audits names accepted.cell (map view_tree accepted.trees.items)) text.now names accepted.cell result (sunk O.told O.calls O.faults out.old out.new) (sunk E.told E.calls E.faults err.old err.new) }
    ensures causes { IfSome result.refused (IsDoneFault (O.faults out.old) (O.faults out.new)) }
{
    let named = names_of(&accepted.cell);
    match read_history(alloc, &named, text) {
        Ok((events, fates)) => {
            let events = events.as_slice();
            audit_events(alloc, accepted, events, fates.as_slice(), out, err)
        }
        Err(HistoryFault::Line(line)) => refuse(alloc, err, "", Refused::History { line }),
        Err(HistoryFault::Memory) => refuse(alloc, err, "", Refused::Memory),
    }
}

/// Audits a history with an accepted cell, and reports it. All memory is taken before the first event.
fn audit_events<O: Sink, E: Sink>(
    alloc: Global,
    accepted: CheckedCell,
    events: &[Event],
    fates: &[Fate],
    out: &mut O,
    err: &mut E,
) -> Report
    requires script { HasScript (made_of accepted) }
    requires actors { All (λ e. e.actor ≤ length accepted.cell.tasks) events.now }
    requires few { length fates.now ≤ length accepted.cell.tasks }
    ensures { AuditsOrMemory accepted.cell (map view_tree accepted.trees.items) events.now fates.now result (sunk O.told O.calls O.faults out.old out.new) (sunk E.told E.calls E.faults err.old err.new) }
{
    accepted_tasks_ask_well();
    accepted_tasks_ask_as_their_code();
    accepted_code_suits_its_task();
    let CheckedCell { cell, trees } = accepted;
    match audit_history::<Brand>(alloc, cell, trees.as_slice(), events, fates) {
        Ok(audited) => report_audit(alloc, &audited, events.len(), out, err),
        Err(_) => refuse(alloc, err, "", Refused::Memory),
    }
}

/// Prints what was found of a history of this many events, and reports it.
pub(crate) fn report_audit<O: Sink, E: Sink>(
    alloc: Global,
    audited: &Audited,
    count: usize,
    out: &mut O,
    err: &mut E,
) -> Report
    ensures nothing { RanNothing result }
    ensures printed { PrintsBy (audit_status audited.now.found) (audit_line audited.now.core.cell.tasks count audited.now.found ∷ []) result (sunk O.told O.calls O.faults out.old out.new) (sunk E.told E.calls E.faults err.old err.new) }
{
    match print_audit(out, &names_of(audited.core.cell()), count, &audited.found) {
        Ok(()) => Report {
            status: status_of(&audited.found),
            history: Vec::new(alloc),
            fates: Vec::new(alloc),
            refused: None,
        },
        Err(_) => refuse(alloc, err, "", Refused::Write),
    }
}

fn status_of(found: &Result<bool, AuditFault>) -> u8
    ensures { result ≡ audit_status found.now }
{
    match found {
        Ok(_) => 0,
        Err(_) => 12,
    }
}
