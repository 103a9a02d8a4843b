ghost use Rattle.std.specs.Prelude.{◌≡◌, ◌≢◌, ◌≤◌, ℕ, ◌↔◌, Bool, List, Some, false, IfSome, length, map};
ghost use Rattle.outside.specs.Count.{Rose};
ghost use Rattle.rapid_limits.specs.declared.TheConstants.{HISTORY_BYTES};
ghost use Rattle.controller.specs.Done.{IsDoneFault};
ghost use Rattle.cell_loading.specs.Loaded.{made_of, AreShort};
ghost use Rattle.state_lines.specs.Sources.{view_modules};
ghost use Rattle.controller.specs.Ready.{HasScript};
ghost use Rattle.command_words.specs.Words.{is_migrate, is_run, refused_place};
ghost use Rattle.sink_lines.specs.Printed.{sunk};
ghost use Rattle.controller.specs.Answered.{AnswersWords, AnswersMade};
ghost use Rattle.controller.specs.Complete.{IsComplete};

use crate::accepted::accepted_cell;
use crate::audit_cell::audit_cell;
use crate::list::list_cell;
use crate::measure_cell::measure_cell;
use crate::migrate::migrate;
use crate::prepared::Prepared;
use crate::report::{Report, report_accepted};
use crate::run::run_cell;
use crate::state_cell::state_cell;
use crate::trace_cell::trace_cell;
use cell_loading::Refused;
use command_words::{Action, is_migrate};
use outside::{Shelf, Sink};
use run_lines::Shown;
use std::alloc::Global;
use std::convert::AsSlice;
use std::mem;

/// Does what the command words say, unless they ask for `run` (`is_run`), with the script in the file CELL and the
/// modules that it names. A refusal is one line on the second sink. Otherwise the first sink gets these lines:
///
/// - for `check CELL`: `accepted`;
/// - for `round CELL`, which runs the cell round-robin on one thread: in order, for each setpoint that was given `S`,
///   its task and the six axes in degrees, and for each text to the operator `T`, its task and the text; then for each
///   task, in script order, `E`, its name and its fate, which is `Done`, `Exit`, `Fault` and the fault, `Held` or
///   `Cut`;
/// - for `list CELL`: the persistents, the signals and the meetings by number; then the operations of each task's code;
/// - for `load N`, N from 1 to 1000, which runs the load cell of N moves round-robin and reads no file: the number of
///   events, the number of setpoints given, and the last value of its persistent, each in a line of `L`; then the lines
///   of `E`;
/// - for `audit CELL HISTORY`, which reads the lines of a history, as `--history` prints them, from the file HISTORY: one
///   line of `A`, which says that the cell can have this history, whole or up to some event, or the first event or fate
///   that is wrong;
/// - for `state CELL HISTORY`, if nothing is wrong with the history: for each persistent `P` and its number, its owner,
///   its name and its value; then for each task a line of `V` for each of its module data, with its name and what it
///   holds, and a line of `N`, with the file, the line and the column of the statement that it has reached and what it
///   asks there. Otherwise the line of `A`;
/// - for `clearance CELL`, which runs the cell as `round` does: for each zone of the cell, in script order, a line of `G`
///   for each setpoint that its arm was given, or one for the start: the zone, the number of the event or `start`, the
///   least distance on the way there in thousandths of a degree, the first fraction of the way that has it, and the
///   sides of the zone that prove it; and a line of `C`, the first of these segments that came nearest; then the lines
///   of `E`;
/// - for `trace CELL`, which runs the cell as `round` does: for each event a line of `M`, with its task, `-` for the input
///   script; the file, the line and the column of the statement, which are those of the last Look that the task had asked
///   by then, `- -` without one; what was asked and what the cell answered; then the lines of `E`;
/// - for `migrate CELL`, which reads no module: the script in version 2, as `migrate_script` prints it.
///
/// `--history` may be given anywhere among the words, once: with it `round` prints, in place of `S` and `T`, the line
/// of each event: `H`, its task, what was asked and what the cell answered. It always returns.
pub fn quiet<W: AsSlice<u8>, S: Shelf, O: Sink, E: Sink>(
    alloc: Global,
    words: &[W],
    shelf: &mut S,
    out: &mut O,
    err: &mut E,
) -> Report
    requires { is_run (map W.items words.now) ≡ false }
    // The report answers what the words and the files come to.
    ensures answers { AnswersWords (map W.items words.now) (S.told shelf.old) result (sunk O.told O.calls O.faults out.old out.new) (sunk E.told E.calls E.faults err.old err.new) }
    // Words are refused exactly if they are wrong, whatever the shelf reports.
    ensures words { (place : ℕ) → (result.refused ≡ Some (Refused.Words place)) ↔ (refused_place (map W.items words.now) ≡ Some place) }
    // A read fails only if the shelf counted a fault, and a write only if the first sink did.
    ensures read { (file : ℕ) → result.refused ≡ Some (Refused.Read file) → Rose (S.faults shelf.old) (S.faults shelf.new) }
    ensures write { result.refused ≡ Some Refused.Write → Rose (O.faults out.old) (O.faults out.new) }
    // If no write fails, what the words and the files come to is done, or memory ran out before the first event.
    ensures done { IsComplete (map W.items words.now) (S.told shelf.old) result (sunk O.told O.calls O.faults out.old out.new) (sunk E.told E.calls E.faults err.old err.new) }
{
    if is_migrate(words) {
        migrate(alloc, words, shelf, out, err)
    } else {
        with_cell(alloc, words, shelf, out, err)
    }
}

/// The same if the words ask for no `migrate` either.
fn with_cell<W: AsSlice<u8>, S: Shelf, O: Sink, E: Sink>(
    alloc: Global,
    words: &[W],
    shelf: &mut S,
    out: &mut O,
    err: &mut E,
) -> Report
    requires run { is_run (map W.items words.now) ≡ false }
    requires migrate { is_migrate (map W.items words.now) ≡ false }
    ensures answers { AnswersWords (map W.items words.now) (S.told shelf.old) result (sunk O.told O.calls O.faults out.old out.new) (sunk E.told E.calls E.faults err.old err.new) }
    ensures words { (place : ℕ) → (result.refused ≡ Some (Refused.Words place)) ↔ (refused_place (map W.items words.now) ≡ Some place) }
    ensures read { (file : ℕ) → result.refused ≡ Some (Refused.Read file) → Rose (S.faults shelf.old) (S.faults shelf.new) }
    ensures write { result.refused ≡ Some Refused.Write → Rose (O.faults out.old) (O.faults out.new) }
    ensures done { IsComplete (map W.items words.now) (S.told shelf.old) result (sunk O.told O.calls O.faults out.old out.new) (sunk E.told E.calls E.faults err.old err.new) }
{
    match accepted_cell(alloc, words, shelf, err) {
        Ok((action, prepared)) => do_prepared(alloc, action, prepared, out, err),
        Err(report) => report,
    }
}

/// Does the action, which is neither `run` nor `migrate`.
fn do_prepared<O: Sink, E: Sink>(
    alloc: Global,
    action: Action,
    prepared: Prepared,
    out: &mut O,
    err: &mut E,
) -> Report
    requires script { HasScript (made_of prepared.accepted) }
    requires other { (full : Bool) → action ≢ Action.Run full }
    requires cell { action ≢ Action.Migrate }
    requires within { length prepared.text.items ≤ HISTORY_BYTES }
    requires modules { AreShort prepared.modules }
    ensures answers { (last : List ℕ) (names : List (List ℕ)) → AnswersMade action last prepared.text.items names (view_modules prepared.modules) (made_of prepared.accepted) result (sunk O.told O.calls O.faults out.old out.new) (sunk E.told E.calls E.faults err.old err.new) }
    ensures causes { IfSome result.refused (IsDoneFault (O.faults out.old) (O.faults out.new)) }
{
    let Prepared {
        accepted,
        modules,
        text,
    } = prepared;
    match action {
        Action::Check => {
            // The process ends after this line, and frees the trees with it.
            mem::forget(accepted);
            report_accepted(alloc, out, err)
        }
        Action::Round { full } => run_cell(alloc, accepted, Shown::Events { full }, out, err),
        Action::List => list_cell(alloc, &accepted, out, err),
        Action::Load { .. } => run_cell(alloc, accepted, Shown::Summary, out, err),
        Action::Audit => audit_cell(alloc, accepted, text.as_slice(), out, err),
        Action::State => state_cell(alloc, accepted, &modules, text.as_slice(), out, err),
        Action::Clearance => measure_cell(alloc, accepted, out, err),
        Action::Trace => trace_cell(alloc, accepted, &modules, out, err),
        Action::Run { .. } => unreachable!(),
        Action::Migrate => unreachable!(),
    }
}
