ghost use Rattle.std.specs.Prelude.{◌≡◌, ◌<◌, ◌^◌, ℕ, List, None, Some, Ok, IfOk, IfErr, IfSome, All, length, Option};
ghost use Rattle.rapid_model.specs.ScriptData.{module_names};
ghost use Rattle.outside.specs.Told.{Told};
ghost use Rattle.controller.specs.Accepted.{ActionReads};
ghost use Rattle.cell_loading.specs.ReadModules.{checked};
ghost use Rattle.state_lines.specs.Sources.{sources_in};
ghost use Rattle.cell_loading.specs.Files.{IsLoadFault, Reads};
ghost use Rattle.cell_loading.specs.Loaded.{bytes_of, file_names, made_of, names_in_turn, reads_in, ArePaired, AreSpelled, IsWithin};
ghost use Rattle.controller.specs.Ready.{HasScript};
ghost use Rattle.sink_lines.specs.Printed.{sunk, Seen};
ghost use Rattle.controller.specs.Answered.{untouched, AnswersReads, AnswersWords};
ghost use Rattle.controller.specs.Asked.{GiveTexts, IsToDo};

use crate::report::{Report, refuse_file};
use cell_loading::{CheckedCell, Modules, Refused, check_modules, parse_texts};
use command_words::{Action, Command};
use outside::Sink;
use rapid_model::Script;
use raw_trees::RawModule;
use std::alloc::Global;
use std::mem;

/// The cell of a script and of the texts of its modules, whose files have these names. Otherwise the report of the
/// refusal, whose line is printed. `failed` is why the next text could not be read, if there is one.
pub(crate) fn texts_cell<E: Sink>(
    alloc: Global,
    command: &Command<'_>,
    script: &Script,
    files: &[&str],
    texts: &[Vec<u8>],
    failed: Option<Refused>,
    err: &mut E,
) -> Result<CheckedCell, Report>
    requires named { names_in_turn files.now ≡ module_names script.now.tasks }
    requires few { length texts.now < 2 ^ 31 }
    requires within { All IsWithin texts.now }
    // After a refusal nothing more is done, and the first sink gained nothing.
    ensures refused { IfErr result (λ report. (words : List (List ℕ)) (told : Option Told) (held : Seen) → GiveTexts words told command.now.action command.now.script.now command.now.history.now script.now (bytes_of texts.now) failed → AnswersWords words told report (untouched held) (sunk E.told E.calls E.faults err.old err.new)) }
    ensures causes { IfErr result (λ report. (old new : ℕ) → IfSome failed (IsLoadFault old new) → IfSome report.refused (IsLoadFault old new)) }
    // Otherwise the action is to be done with this cell.
    ensures asked { IfOk result (λ accepted. (words : List (List ℕ)) (told : Option Told) (given : GiveTexts words told command.now.action command.now.script.now command.now.history.now script.now (bytes_of texts.now) failed) → IsToDo words told (ActionReads (Some command.now.action) given.given.gave command.now.history.now) (file_names command.now.script.now files.now) (sources_in script.now.tasks (bytes_of texts.now)) (made_of accepted)) }
    ensures whole { IfOk result (λ _. failed ≡ None) }
    ensures script { IfOk result (λ accepted. HasScript (made_of accepted)) }
    ensures untold { IfOk result (λ _. err.new ≡ err.old) }
{
    match parse_texts(alloc, texts, failed) {
        Ok(trees) => {
            let modules = Modules {
                first: 1,
                texts,
                trees: trees.as_slice(),
            };
            let cell = cell_of(alloc, command, script, files, &modules, err);
            let_go(command.action, trees);
            cell
        }
        Err(refused) => Err(refuse_file(alloc, err, command.script, files, refused)),
    }
}

/// Frees the trees of the modules. Those of `check` are left to the end of the process, one line later.
fn let_go(action: Action, trees: Vec<RawModule<'_>>) {
    match action {
        Action::Check => mem::forget(trees),
        _ => drop(trees),
    }
}

/// The cell of a script whose modules are all read, unless they break a rule.
fn cell_of<E: Sink>(
    alloc: Global,
    command: &Command<'_>,
    script: &Script,
    files: &[&str],
    modules: &Modules<'_, '_>,
    err: &mut E,
) -> Result<CheckedCell, Report>
    requires paired { ArePaired modules.now }
    requires spelled { AreSpelled (reads_in modules.now) }
    ensures refused { IfErr result (λ report. (gave : Reads) (held : Seen) → AnswersReads (ActionReads (Some command.now.action) gave command.now.history.now) (file_names command.now.script.now files.now) script.now (reads_in modules.now) report (untouched held) (sunk E.told E.calls E.faults err.old err.new)) }
    ensures causes { IfErr result (λ report. (old new : ℕ) → IfSome report.refused (IsLoadFault old new)) }
    ensures gives { IfOk result (λ accepted. checked script.now (reads_in modules.now) ≡ Ok (made_of accepted)) }
    ensures script { IfOk result (λ accepted. HasScript (made_of accepted)) }
    ensures untold { IfOk result (λ _. err.new ≡ err.old) }
{
    // A script is within its limits.
    prove!(script.steps() > 0);
    match check_modules(alloc, script, modules) {
        Ok(accepted) => Ok(accepted),
        Err(refused) => Err(refuse_file(alloc, err, command.script, files, refused)),
    }
}
