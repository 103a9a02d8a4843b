ghost use Rattle.std.specs.Prelude.{◌≡◌, ◌≤◌, ℕ, ◌↔◌, List, Option, Some, Ok, true, IfOk, IfErr, IfSome, map};
ghost use Rattle.outside.specs.Count.{Rose};
ghost use Rattle.outside.specs.Told.{found};
ghost use Rattle.rapid_limits.specs.declared.TheConstants.{SCRIPT_BYTES};
ghost use Rattle.command_words.specs.Words.{is_migrate, refused_place};
ghost use Rattle.cell_loading.specs.Files.{text_of, IsLoadFault};
ghost use Rattle.controller.specs.Ready.{IsMigratedIn};
ghost use Rattle.sink_lines.specs.Printed.{sunk};
ghost use Rattle.controller.specs.Answered.{AnswersWords};
ghost use Rattle.controller.specs.Complete.{IsComplete};

use crate::report::{Report, refuse, refuse_file, report_text};
use cell_loading::{Refused, read_file};
use cell_script::ScriptFault;
use command_words::read_words;
use outside::{Shelf, Sink};
use rapid_limits::SCRIPT_BYTES;
use script_migration::migrate_script;
use std::alloc::Global;
use std::convert::AsSlice;

/// Does what the command words say, which ask for `migrate` (`is_migrate`): prints the script in the file CELL in version
/// 2. No module is read. A refusal is one line on the second sink.
pub(crate) fn migrate<W: AsSlice<u8>, S: Shelf, O: Sink, E: Sink>(
    alloc: Global,
    words: &[W],
    shelf: &mut S,
    out: &mut O,
    err: &mut E,
) -> Report
    requires { is_migrate (map W.items words.now) ≡ true }
    ensures answers { AnswersWords (map W.items words.now) (S.told shelf.old) result (sunk O.told O.calls O.faults out.old out.new) (sunk E.told E.calls E.faults err.old err.new) }
    ensures words { (place : ℕ) → (result.refused ≡ Some (Refused.Words place)) ↔ (refused_place (map W.items words.now) ≡ Some place) }
    ensures read { (file : ℕ) → result.refused ≡ Some (Refused.Read file) → Rose (S.faults shelf.old) (S.faults shelf.new) }
    ensures write { result.refused ≡ Some Refused.Write → Rose (O.faults out.old) (O.faults out.new) }
    ensures done { IsComplete (map W.items words.now) (S.told shelf.old) result (sunk O.told O.calls O.faults out.old out.new) (sunk E.told E.calls E.faults err.old err.new) }
{
    let command = match read_words(words) {
        Ok(command) => command,
        Err(place) => return refuse(alloc, err, "", Refused::Words { place }),
    };
    match load_migrated(alloc, shelf, command.script) {
        Ok(printed) => report_text(alloc, printed.as_str().as_bytes(), out, err),
        Err(refused) => refuse_file(alloc, err, command.script, &[], refused),
    }
}

/// The script in the file with this name, in version 2.
fn load_migrated<S: Shelf>(alloc: Global, shelf: &mut S, name: &str) -> Result<String, Refused>
    ensures faults { S.faults shelf.old ≤ S.faults shelf.new }
    ensures causes { IfErr result (IsLoadFault (S.faults shelf.old) (S.faults shelf.new)) }
    // It is what the read comes to by what the shelf reports,
    ensures told { IfSome (S.told shelf.old) (λ told. IsMigratedIn (text_of 0 SCRIPT_BYTES (found told name.now)) result) }
    // and what some read comes to, whatever the shelf reports.
    ensures read { (gave : Option (List ℕ)) × IsMigratedIn (text_of 0 SCRIPT_BYTES gave) result }
{
    let text = read_file(alloc, shelf, 0, SCRIPT_BYTES, name)?;
    migrated_of(alloc, text.as_slice())
}

/// The script that a text is, in version 2.
fn migrated_of(alloc: Global, text: &[u8]) -> Result<String, Refused>
    ensures script { IsMigratedIn (Ok text.now) result }
    ensures causes { (old new : ℕ) → IfErr result (IsLoadFault old new) }
{
    match migrate_script(alloc, text) {
        Ok(printed) => Ok(printed),
        Err(ScriptFault::Rule { key, rule }) => Err(Refused::Script { key, rule }),
        Err(ScriptFault::Memory) => Err(Refused::Memory),
    }
}
