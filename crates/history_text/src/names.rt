ghost use Rattle.std.specs.Prelude.{◌≡◌};
ghost use Rattle.history_text.specs.HistoryText.{AreNamed};

use rapid_model::{Cell, PersCell, SignalRow, TaskRow};

/// What the lines of a history name, each by its number from 0: the tasks, the signals and the persistents of a cell.
#[derive(Clone, Copy, Debug)]
pub struct Names<'a> {
    pub tasks: &'a [TaskRow],
    pub signals: &'a [SignalRow],
    pub pers: &'a [PersCell],
}

/// The names of a cell.
pub fn names_of(cell: &Cell) -> Names<'_>
    ensures tasks { result.tasks.now ≡ cell.now.tasks }
    ensures signals { result.signals.now ≡ cell.now.signals }
    ensures pers { result.pers.now ≡ cell.now.pers }
    ensures named { AreNamed cell.now.tasks }
{
    let _steps = cell.steps();
    Names {
        tasks: cell.tasks().as_slice(),
        signals: cell.signals().as_slice(),
        pers: cell.pers().as_slice(),
    }
}
