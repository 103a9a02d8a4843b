//! The state of a cell after a printed history.

ghost use Rattle.std.specs.Prelude.{◌≤◌, ℕ, List, All, IfSome, length, map};
ghost use Rattle.rapid_limits.specs.declared.TheConstants.{HISTORY_BYTES};
ghost use Rattle.typed_trees.specs.Views.{view_tree};
ghost use Rattle.state_text.specs.StateLines.{state_lines};
ghost use Rattle.controller.specs.Accepted.{states};
ghost use Rattle.controller.specs.Answered.{AnswersHistory, PrintsBy, RanNothing, StatesOrMemory};
ghost use Rattle.controller.specs.Done.{IsDoneFault};
ghost use Rattle.cell_loading.specs.Loaded.{made_of, AreShort};
ghost use Rattle.state_lines.specs.Sources.{view_modules};
ghost use Rattle.controller.specs.Ready.{HasScript};
ghost use Rattle.sink_lines.specs.Printed.{sunk};

use crate::audit_cell::report_audit;
use crate::report::{Report, refuse};
use accepted_cells::{
    accepted_code_suits_its_task, accepted_tasks_ask_as_their_code, accepted_tasks_ask_well,
};
use cell_loading::{CheckedCell, ModuleTexts, Refused};
use cell_runs::{Audited, Stated, audit_history, state_reached};
use history_text::{HistoryFault, names_of, read_history};
use outside::Sink;
use rapid_model::{Event, Fate};
use state_lines::print_state;
use std::alloc::Global;
use std::marker::Brand;
use typed_trees::Tree;

/// Prints the state of an accepted cell after the history that a text spells, if nothing is wrong with it, and reports
/// it; or reports what is wrong with the history, or the first line with which the lines start no history of the cell.
pub(crate) fn state_cell<O: Sink, E: Sink>(
    alloc: Global,
    accepted: CheckedCell,
    modules: &Option<ModuleTexts>,
    text: &[u8],
    out: &mut O,
    err: &mut E,
) -> Report
    requires script { HasScript (made_of accepted) }
    requires short { AreShort modules.now }
    requires within { length text.now ≤ HISTORY_BYTES }
    ensures answers { (names : List (List ℕ)) → AnswersHistory (states names accepted.cell (map view_tree accepted.trees.items) (view_modules modules.now)) text.now names accepted.cell result (sunk O.told O.calls O.faults out.old out.new) (sunk E.told E.calls E.faults err.old err.new) }
    ensures causes { IfSome result.refused (IsDoneFault (O.faults out.old) (O.faults out.new)) }
{
    let named = names_of(&accepted.cell);
    match read_history(alloc, &named, text) {
        Ok((events, fates)) => {
            let events = events.as_slice();
            state_after(alloc, accepted, modules, events, fates.as_slice(), out, err)
        }
        Err(HistoryFault::Line(line)) => refuse(alloc, err, "", Refused::History { line }),
        Err(HistoryFault::Memory) => refuse(alloc, err, "", Refused::Memory),
    }
}

/// Audits a history with an accepted cell, and prints the state after it or what is wrong with it.
fn state_after<O: Sink, E: Sink>(
    alloc: Global,
    accepted: CheckedCell,
    modules: &Option<ModuleTexts>,
    events: &[Event],
    fates: &[Fate],
    out: &mut O,
    err: &mut E,
) -> Report
    requires script { HasScript (made_of accepted) }
    requires short { AreShort modules.now }
    requires actors { All (λ e. e.actor ≤ length accepted.cell.tasks) events.now }
    requires few { length fates.now ≤ length accepted.cell.tasks }
    ensures { StatesOrMemory accepted.cell (map view_tree accepted.trees.items) (view_modules modules.now) events.now fates.now result (sunk O.told O.calls O.faults out.old out.new) (sunk E.told E.calls E.faults err.old err.new) }
{
    accepted_tasks_ask_well();
    accepted_tasks_ask_as_their_code();
    accepted_code_suits_its_task();
    let CheckedCell { cell, trees } = accepted;
    let trees = trees.as_slice();
    let audited = match audit_history::<Brand>(alloc, cell, trees, events, fates) {
        Ok(audited) => audited,
        Err(_) => return refuse(alloc, err, "", Refused::Memory),
    };
    if audited.found.is_err() {
        return report_audit(alloc, &audited, events.len(), out, err);
    }
    let Audited { core, found: _ } = audited;
    match state_reached::<Brand>(alloc, core.into_cell(), trees, events) {
        Ok(stated) => report_state(alloc, &stated, trees, modules, out, err),
        Err(_) => refuse(alloc, err, "", Refused::Memory),
    }
}

/// Prints the state after a legal history, and reports it.
fn report_state<O: Sink, E: Sink>(
    alloc: Global,
    stated: &Stated,
    trees: &[Tree],
    modules: &Option<ModuleTexts>,
    out: &mut O,
    err: &mut E,
) -> Report
    requires { AreShort modules.now }
    ensures nothing { RanNothing result }
    ensures printed { PrintsBy 0 (state_lines stated.now.core.cell (map view_tree trees.now) (view_modules modules.now) stated.now.state) result (sunk O.told O.calls O.faults out.old out.new) (sunk E.told E.calls E.faults err.old err.new) }
{
    match print_state(out, stated.core.cell(), trees, modules, &stated.state) {
        Ok(()) => Report {
            status: 0,
            history: Vec::new(alloc),
            fates: Vec::new(alloc),
            refused: None,
        },
        Err(_) => refuse(alloc, err, "", Refused::Write),
    }
}
