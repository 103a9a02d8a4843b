ghost use Rattle.std.specs.Prelude.{◌≤◌, IfOk, IfErr, IfSome, IsTrue, length};
ghost use Rattle.outside.specs.Told.{found};
ghost use Rattle.cell_loading.specs.Files.{text_of, IsLoadFault, IsUnread, GivesText};
ghost use Rattle.controller.specs.Accepted.{reads_history};

use cell_loading::{Refused, read_file};
use command_words::{Action, Command};
use outside::Shelf;
use rapid_limits::HISTORY_BYTES;
use std::alloc::Global;

/// The text of the file that an action reads last, by its number: for `audit` and `state` the history. Other actions read
/// no such file, and it is empty.
pub(crate) fn load_last<S: Shelf>(
    alloc: Global,
    shelf: &mut S,
    command: &Command<'_>,
    file: u32,
) -> Result<Vec<u8>, Refused>
    ensures faults { S.faults shelf.old ≤ S.faults shelf.new }
    ensures causes { IfErr result (IsLoadFault (S.faults shelf.old) (S.faults shelf.new)) }
    ensures unread { IfErr result (λ refused. IsTrue (reads_history command.now.action) × IsUnread file refused) }
    ensures within { IfOk result (λ text. length text.items ≤ HISTORY_BYTES) }
    ensures gives { IsTrue (reads_history command.now.action) → IfSome (S.told shelf.old) (λ told. GivesText (text_of file HISTORY_BYTES (found told command.now.history.now)) result) }
{
    match command.action {
        Action::Audit | Action::State => read_file(
            alloc,
            shelf,
            file,
            HISTORY_BYTES,
            command.history,
        ),
        _ => Ok(Vec::new(alloc)),
    }
}
