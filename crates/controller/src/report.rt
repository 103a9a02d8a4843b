ghost use Rattle.std.specs.Prelude.{◌≡◌, ◌≤◌, [], Some};
ghost use Rattle.std.specs.Option.{option_map_or};
ghost use Rattle.cell_loading.specs.Loaded.{file_names};
ghost use Rattle.sink_lines.specs.Printed.{sunk, Seen};
ghost use Rattle.sink_lines.specs.Written.{TakesLine};
ghost use Rattle.cell_loading.specs.Refusals.{status_of, file_of};
ghost use Rattle.controller.specs.RefusalLines.{refusal_text, refusal_line, name_at};
ghost use Rattle.controller.specs.Answered.{untouched, AnswersAccepted, AnswersText, IsOutOfMemory};

use crate::refusal::tell_refusal;
use cell_loading::Refused;
use outside::Sink;
use rapid_model::{Event, Fate};
use sink_lines::write_all;
use std::alloc::Global;

/// The outcome of a call: its status, the history of the run, the fate of each task in script order, and the refusal,
/// if there is one. Only `round`, `run`, `load`, `clearance` and `trace` make a history and fates. A refusal other than
/// `Write` leaves none.
///
/// Without a refusal the status is 0 for `check`, `list` and `migrate`. For a run, also if it is measured or traced, it
/// is 0 if every task ended without a fault, 1 if every task ended and one with a fault, 8 if no task that has not ended
/// can go on, and 9 if the steps are spent. For `audit` and `state` it is 0 if nothing is wrong with the history, and 12
/// otherwise.
#[derive(Debug, Drop)]
pub struct Report {
    pub status: u8,
    pub history: Vec<Event>,
    pub fates: Vec<Fate>,
    pub refused: Option<Refused>,
}

/// Prints that all is accepted, and reports it.
pub(crate) fn report_accepted<O: Sink, E: Sink>(alloc: Global, out: &mut O, err: &mut E) -> Report
    ensures { AnswersAccepted result (sunk O.told O.calls O.faults out.old out.new) (sunk E.told E.calls E.faults err.old err.new) }
{
    report_text(alloc, b"accepted\n", out, err)
}

/// Prints a text in one piece, and reports it.
pub(crate) fn report_text<O: Sink, E: Sink>(
    alloc: Global,
    text: &[u8],
    out: &mut O,
    err: &mut E,
) -> Report
    ensures { AnswersText text.now result (sunk O.told O.calls O.faults out.old out.new) (sunk E.told E.calls E.faults err.old err.new) }
{
    match write_all(out, text) {
        Ok(()) => Report {
            status: 0,
            history: Vec::new(alloc),
            fates: Vec::new(alloc),
            refused: None,
        },
        Err(_) => refuse(alloc, err, "", Refused::Write),
    }
}

/// Prints a refusal on the second sink, and reports it. `name` is the name of the file that it is about, if there is
/// one.
pub(crate) fn refuse<E: Sink>(alloc: Global, err: &mut E, name: &str, refused: Refused) -> Report
    ensures refused { result.refused ≡ Some refused }
    ensures status { result.status ≡ status_of refused }
    ensures history { result.history.items ≡ [] }
    ensures fates { result.fates.items ≡ [] }
    ensures faults { E.faults err.old ≤ E.faults err.new }
    ensures told { TakesLine (refusal_text name.now refused) (sunk E.told E.calls E.faults err.old err.new) }
{
    tell_refusal(err, name, &refused);
    Report {
        status: refused.status(),
        history: Vec::new(alloc),
        fates: Vec::new(alloc),
        refused: Some(refused),
    }
}

/// The same for a refusal of a file, the script's or one of these modules'.
pub(crate) fn refuse_file<E: Sink>(
    alloc: Global,
    err: &mut E,
    script: &str,
    modules: &[&str],
    refused: Refused,
) -> Report
    ensures refused { result.refused ≡ Some refused }
    ensures status { result.status ≡ status_of refused }
    ensures history { result.history.items ≡ [] }
    ensures fates { result.fates.items ≡ [] }
    ensures told { TakesLine (refusal_line (file_names script.now modules.now) refused) (sunk E.told E.calls E.faults err.old err.new) }
{
    refuse(alloc, err, told_name(script, modules, &refused), refused)
}

/// Reports that there is no memory for the command words. The line of that refusal is printed on the second sink.
pub fn out_of_memory<E: Sink>(alloc: Global, err: &mut E) -> Report
    ensures { (held : Seen) → IsOutOfMemory result (untouched held) (sunk E.told E.calls E.faults err.old err.new) }
{
    refuse(alloc, err, "", Refused::Memory)
}

/// The name of the file that a refusal is about, if there is one.
fn told_name<'a>(script: &'a str, modules: &[&'a str], refused: &Refused) -> &'a str
    ensures { result.now ≡ option_map_or (name_at (file_names script.now modules.now)) (file_of refused.now) [] }
{
    match refused.file() {
        Some(file) => file_name(script, modules, file),
        None => "",
    }
}

/// The name of the file with this number.
fn file_name<'a>(script: &'a str, modules: &[&'a str], file: u32) -> &'a str
    ensures { result.now ≡ name_at (file_names script.now modules.now) file }
{
    if file == 0 {
        return script;
    }
    match modules.get(file as usize - 1) {
        Some(name) => name,
        None => "",
    }
}
