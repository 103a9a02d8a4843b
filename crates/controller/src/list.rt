ghost use Rattle.std.specs.Prelude.{◌≡◌, List, map};
ghost use Rattle.stack_code.specs.Compiled.{compiled};
ghost use Rattle.typed_trees.specs.Plain.{TypedTree};
ghost use Rattle.typed_trees.specs.Views.{view_tree};
ghost use Rattle.cell_loading.specs.Loaded.{made_of};
ghost use Rattle.controller.specs.Ready.{HasScript};
ghost use Rattle.sink_lines.specs.Printed.{sunk};
ghost use Rattle.controller.specs.Answered.{AnswersList, AreCodesOf, ListsOrMemory};

use crate::report::{Report, refuse};
use cell_loading::{CheckedCell, Refused};
use cell_runs::compile_all;
use outside::Sink;
use rapid_model::Cell;
use run_lines::print_list;
use std::alloc::Global;
use task_code::Code;

/// Lists an accepted cell and the code of its tasks, and reports it. All memory is taken before anything is printed.
pub(crate) fn list_cell<O: Sink, E: Sink>(
    alloc: Global,
    accepted: &CheckedCell,
    out: &mut O,
    err: &mut E,
) -> Report
    requires { HasScript (made_of accepted.now) }
    ensures { ListsOrMemory accepted.now.cell (map view_tree accepted.now.trees.items) result (sunk O.told O.calls O.faults out.old out.new) (sunk E.told E.calls E.faults err.old err.new) }
{
    match compile_all(alloc, accepted.trees.as_slice()) {
        Ok(each) => report_list(alloc, &accepted.cell, each.as_slice(), out, err),
        Err(_) => refuse(alloc, err, "", Refused::Memory),
    }
}

/// Prints a list and reports it.
fn report_list<O: Sink, E: Sink>(
    alloc: Global,
    cell: &Cell,
    each: &[Code],
    out: &mut O,
    err: &mut E,
) -> Report
    ensures { (trees : List TypedTree) → AreCodesOf trees each.now → AnswersList cell.now trees result (sunk O.told O.calls O.faults out.old out.new) (sunk E.told E.calls E.faults err.old err.new) }
{
    match print_list(out, cell, each) {
        Ok(()) => Report {
            status: 0,
            history: Vec::new(alloc),
            fates: Vec::new(alloc),
            refused: None,
        },
        Err(_) => refuse(alloc, err, "", Refused::Write),
    }
}
