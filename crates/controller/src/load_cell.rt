ghost use Rattle.std.specs.Prelude.{◌≡◌, ℕ, List, [], Option, IfOk, IfErr, IfSome};
ghost use Rattle.outside.specs.Told.{Told};
ghost use Rattle.cell_loading.specs.Files.{IsLoadFault};
ghost use Rattle.cell_loading.specs.Loaded.{made_of};
ghost use Rattle.controller.specs.Ready.{HasScript};
ghost use Rattle.sink_lines.specs.Printed.{sunk, Seen};
ghost use Rattle.controller.specs.Answered.{untouched, AnswersWords};
ghost use Rattle.command_words.specs.Words.{AreMoves};
ghost use Rattle.controller.specs.Asked.{AreFor, IsAsked};

use crate::report::{Report, refuse, refuse_file};
use crate::texts_cell::texts_cell;
use cell_load::make_load;
use cell_loading::{CheckedCell, Refused, module_files, own_texts, script_of};
use command_words::{Action, Command};
use outside::Sink;
use std::alloc::Global;

/// The load cell of this many moves, from texts of its own. Otherwise the report of the refusal, whose line is printed.
pub(crate) fn load_cell<E: Sink>(
    alloc: Global,
    command: &Command<'_>,
    moves: u32,
    err: &mut E,
) -> Result<CheckedCell, Report>
    requires action { command.now.action ≡ Action.Load moves }
    requires moves { AreMoves moves }
    ensures refused { IfErr result (λ report. (words : List (List ℕ)) (told : Option Told) (held : Seen) → AreFor words command.now.action command.now.script.now command.now.history.now → AnswersWords words told report (untouched held) (sunk E.told E.calls E.faults err.old err.new)) }
    ensures causes { IfErr result (λ report. (old new : ℕ) → IfSome report.refused (IsLoadFault old new)) }
    ensures asked { IfOk result (λ accepted. (words : List (List ℕ)) (told : Option Told) (text : List ℕ) → AreFor words command.now.action command.now.script.now command.now.history.now → IsAsked words told command.now.action (made_of accepted) [] text) }
    ensures script { IfOk result (λ accepted. HasScript (made_of accepted)) }
    ensures untold { IfOk result (λ _. err.new ≡ err.old) }
{
    let load = match make_load(alloc, moves) {
        Ok(load) => load,
        Err(_) => return Err(refuse(alloc, err, "", Refused::Memory)),
    };
    let script = match script_of(alloc, load.script.as_slice()) {
        Ok(script) => script,
        Err(refused) => return Err(refuse_file(alloc, err, command.script, &[], refused)),
    };
    let names = match module_files(alloc, &script) {
        Ok(names) => names,
        Err(_) => return Err(refuse(alloc, err, "", Refused::Memory)),
    };
    let files = names.as_slice();
    let texts = match own_texts(alloc, load.modules.as_slice(), files) {
        Ok(texts) => texts,
        Err(_) => return Err(refuse(alloc, err, "", Refused::Memory)),
    };
    texts_cell(alloc, command, &script, files, texts.as_slice(), None, err)
}
