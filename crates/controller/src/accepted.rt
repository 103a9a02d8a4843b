ghost use Rattle.std.specs.Prelude.{◌≡◌, ◌≢◌, ◌≤◌, ℕ, ◌↔◌, List, Some, None, IfOk, IfErr, IfSome, length, map};
ghost use Rattle.outside.specs.Count.{Rose};
ghost use Rattle.rapid_limits.specs.declared.TheConstants.{HISTORY_BYTES};
ghost use Rattle.cell_loading.specs.Files.{IsLoadFault};
ghost use Rattle.cell_loading.specs.Loaded.{made_of, AreShort};
ghost use Rattle.state_lines.specs.Sources.{view_modules};
ghost use Rattle.controller.specs.Ready.{HasScript};
ghost use Rattle.command_words.specs.Words.{asked, refused_place, AreMoves};
ghost use Rattle.sink_lines.specs.Printed.{sunk, Seen};
ghost use Rattle.controller.specs.Answered.{untouched, AnswersWords};
ghost use Rattle.controller.specs.Asked.{AreFor, IsAsked};

use crate::load_cell::load_cell;
use crate::prepared::Prepared;
use crate::report::{Report, refuse};
use crate::shelf_cell::shelf_cell;
use cell_loading::Refused;
use command_words::{Action, Command, read_words};
use outside::{Shelf, Sink};
use std::alloc::Global;
use std::convert::AsSlice;

/// The action that the words ask for, unless it is `migrate`, and what it is done with: the cell of the script and the
/// modules that it names, or the load cell; for `state` and `trace` also the texts of the modules; and for `audit` and
/// `state` the text of the history. Or the report of the refusal, whose line is printed. Other texts are freed by then.
pub(crate) fn accepted_cell<W: AsSlice<u8>, S: Shelf, E: Sink>(
    alloc: Global,
    words: &[W],
    shelf: &mut S,
    err: &mut E,
) -> Result<(Action, Prepared), Report>
    requires { (action : Action) → asked (map W.items words.now) ≡ Some action → action ≢ Action.Migrate }
    // After a refusal nothing more is done, and the first sink gained nothing.
    ensures refused { IfErr result (λ report. (held : Seen) → AnswersWords (map W.items words.now) (S.told shelf.old) report (untouched held) (sunk E.told E.calls E.faults err.old err.new)) }
    // Words are refused exactly if they are wrong.
    ensures words { IfErr result (λ report. (place : ℕ) → (report.refused ≡ Some (Refused.Words place)) ↔ (refused_place (map W.items words.now) ≡ Some place)) }
    ensures taken { IfOk result (λ _. refused_place (map W.items words.now) ≡ None) }
    // A read fails only if the shelf counted a fault, and nothing is refused for a write.
    ensures read { IfErr result (λ report. (file : ℕ) → report.refused ≡ Some (Refused.Read file) → Rose (S.faults shelf.old) (S.faults shelf.new)) }
    ensures write { IfErr result (λ report. report.refused ≢ Some Refused.Write) }
    // Otherwise the action is that of the words, with this cell and this text.
    ensures action { IfOk result (λ found. asked (map W.items words.now) ≡ Some found.0) }
    ensures asked { IfOk result (λ found. IsAsked (map W.items words.now) (S.told shelf.old) found.0 (made_of found.1.accepted) (view_modules found.1.modules) found.1.text.items) }
    ensures within { IfOk result (λ found. length found.1.text.items ≤ HISTORY_BYTES) }
    ensures modules { IfOk result (λ found. AreShort found.1.modules) }
    ensures script { IfOk result (λ found. HasScript (made_of found.1.accepted)) }
    ensures untold { IfOk result (λ _. err.new ≡ err.old) }
{
    let command = match read_words(words) {
        Ok(command) => command,
        Err(place) => return Err(refuse(alloc, err, "", Refused::Words { place })),
    };
    match commanded_cell(alloc, &command, shelf, err) {
        Ok(prepared) => Ok((command.action, prepared)),
        Err(report) => Err(report),
    }
}

/// What the action of a command is done with: the load cell, or the cell of the files, with their texts as far as the
/// action needs them. Otherwise the report of the refusal, whose line is printed.
fn commanded_cell<S: Shelf, E: Sink>(
    alloc: Global,
    command: &Command<'_>,
    shelf: &mut S,
    err: &mut E,
) -> Result<Prepared, Report>
    requires moves { (moves : ℕ) → command.now.action ≡ Action.Load moves → AreMoves moves }
    requires cell { command.now.action ≢ Action.Migrate }
    ensures refused { IfErr result (λ report. (words : List (List ℕ)) (held : Seen) → AreFor words command.now.action command.now.script.now command.now.history.now → AnswersWords words (S.told shelf.old) report (untouched held) (sunk E.told E.calls E.faults err.old err.new)) }
    ensures causes { IfErr result (λ report. IfSome report.refused (IsLoadFault (S.faults shelf.old) (S.faults shelf.new))) }
    ensures asked { IfOk result (λ found. (words : List (List ℕ)) → AreFor words command.now.action command.now.script.now command.now.history.now → IsAsked words (S.told shelf.old) command.now.action (made_of found.accepted) (view_modules found.modules) found.text.items) }
    ensures within { IfOk result (λ found. length found.text.items ≤ HISTORY_BYTES) }
    ensures modules { IfOk result (λ found. AreShort found.modules) }
    ensures script { IfOk result (λ found. HasScript (made_of found.accepted)) }
    ensures untold { IfOk result (λ _. err.new ≡ err.old) }
{
    match command.action {
        Action::Load { moves } => match load_cell(alloc, command, moves, err) {
            Ok(accepted) => Ok(Prepared {
                accepted,
                modules: None,
                text: Vec::new(alloc),
            }),
            Err(report) => Err(report),
        },
        _ => shelf_cell(alloc, command, shelf, err),
    }
}
