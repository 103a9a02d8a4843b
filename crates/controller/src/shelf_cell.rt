ghost use Rattle.std.specs.Prelude.{◌≡◌, ◌≢◌, ◌≤◌, ℕ, List, All, IfOk, IfErr, IfSome, IsTrue, length};
ghost use Rattle.rapid_limits.specs.declared.TheConstants.{HISTORY_BYTES};
ghost use Rattle.cell_loading.specs.Files.{IsLoadFault};
ghost use Rattle.controller.specs.Accepted.{prints_places};
ghost use Rattle.state_lines.specs.Sources.{sources_in, view_modules};
ghost use Rattle.cell_loading.specs.Loaded.{bytes_of, made_of, AreShort, IsWithin};
ghost use Rattle.controller.specs.Ready.{HasScript};
ghost use Rattle.sink_lines.specs.Printed.{sunk, Seen};
ghost use Rattle.controller.specs.Answered.{untouched, AnswersWords};
ghost use Rattle.controller.specs.Asked.{AreFor, IsAsked};

use crate::last_text::load_last;
use crate::prepared::Prepared;
use crate::report::{Report, refuse, refuse_file};
use crate::texts_cell::texts_cell;
use cell_loading::{ModuleTexts, Refused, Texts, load_script, load_texts, module_files};
use command_words::{Action, Command};
use outside::{Shelf, Sink};
use rapid_model::Script;
use std::alloc::Global;

/// What an action is done with, by the script in the file that a command names and the modules that it names: the cell,
/// for `state` and `trace` also the texts of the modules, and for `audit` and `state` the text of the history, which is
/// read last.
/// Otherwise the report of the refusal, whose line is printed.
pub(crate) fn shelf_cell<S: Shelf, E: Sink>(
    alloc: Global,
    command: &Command<'_>,
    shelf: &mut S,
    err: &mut E,
) -> Result<Prepared, Report>
    requires moves { (moves : ℕ) → command.now.action ≢ Action.Load moves }
    requires cell { command.now.action ≢ Action.Migrate }
    ensures refused { IfErr result (λ report. (words : List (List ℕ)) (held : Seen) → AreFor words command.now.action command.now.script.now command.now.history.now → AnswersWords words (S.told shelf.old) report (untouched held) (sunk E.told E.calls E.faults err.old err.new)) }
    ensures causes { IfErr result (λ report. IfSome report.refused (IsLoadFault (S.faults shelf.old) (S.faults shelf.new))) }
    ensures asked { IfOk result (λ found. (words : List (List ℕ)) → AreFor words command.now.action command.now.script.now command.now.history.now → IsAsked words (S.told shelf.old) command.now.action (made_of found.accepted) (view_modules found.modules) found.text.items) }
    ensures within { IfOk result (λ found. length found.text.items ≤ HISTORY_BYTES) }
    ensures modules { IfOk result (λ found. AreShort found.modules) }
    ensures script { IfOk result (λ found. HasScript (made_of found.accepted)) }
    ensures untold { IfOk result (λ _. err.new ≡ err.old) }
{
    let script = match load_script(alloc, shelf, command.script) {
        Ok(script) => script,
        Err(refused) => return Err(refuse_file(alloc, err, command.script, &[], refused)),
    };
    let names = match module_files(alloc, &script) {
        Ok(names) => names,
        Err(_) => return Err(refuse(alloc, err, "", Refused::Memory)),
    };
    let files = names.as_slice();
    let Texts { texts, failed } = load_texts(alloc, shelf, files);
    let read = texts.as_slice();
    let accepted = match texts_cell(alloc, command, &script, files, read, failed, err) {
        Ok(accepted) => accepted,
        Err(report) => return Err(report),
    };
    match load_last(alloc, shelf, command, files.len() as u32 + 1) {
        Ok(text) => {
            drop(names);
            Ok(Prepared {
                accepted,
                modules: kept_modules(command.action, script, texts),
                text,
            })
        }
        Err(refused) => Err(refuse(alloc, err, command.history, refused)),
    }
}

/// The modules that an action prints places of.
fn kept_modules(action: Action, script: Script, texts: Vec<Vec<u8>>) -> Option<ModuleTexts>
    ensures kept { IsTrue (prints_places action) → view_modules result ≡ sources_in script.tasks (bytes_of texts.items) }
    ensures short { All IsWithin texts.items → AreShort result }
{
    match action {
        Action::State | Action::Trace => Some(ModuleTexts { script, texts }),
        _ => None,
    }
}
