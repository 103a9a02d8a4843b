//! Items of modules, one after the other.

ghost use Rattle.std.specs.Prelude.{◌≡◌, map};
ghost use Rattle.raw_trees.specs.Views.{view_item};
ghost use Rattle.rule_checks.specs.TypeChecks.{Gives};
ghost use Rattle.decl_types.specs.Data;
ghost use Rattle.decl_types.specs.Views.{view_progress};

use crate::datum::datum;
use crate::locals::routine;
use crate::progress::Progress;
use raw_trees::RawItem;
use rule_checks::TypeFault;
use std::alloc::Global;

/// Adds an item of the module to these data. A LOCAL or TASK PERS is the task's own.
fn item(
    alloc: Global,
    number: u32,
    declared: &RawItem<'_>,
    progress: Progress,
) -> Result<Progress, TypeFault>
    ensures { Gives view_progress result (Data.item number (view_item declared.now) (view_progress progress)) }
{
    match declared {
        RawItem::Datum {
            local,
            task,
            datum: declared,
            ..
        } => datum(alloc, number, *local || *task, declared, progress),
        RawItem::Routine(declared) => routine(alloc, number, declared, progress),
    }
}

/// Adds the items of the module to these data.
pub(crate) fn items(
    alloc: Global,
    number: u32,
    declared: &[RawItem<'_>],
    before: Progress,
) -> Result<Progress, TypeFault>
    ensures { Gives view_progress result (Data.items number (map view_item declared.now) (view_progress before)) }
{
    let mut progress = before;
    for one in declared {
        progress = item(alloc, number, one, progress)?;
    }
    Ok(progress)
}
