//! The meetings of a task.

ghost use Rattle.std.specs.Prelude.{Ok, map};
ghost use Rattle.typed_trees.specs.Views.{view_slot};
ghost use Rattle.rule_checks.specs.TypeChecks.{Gives};
ghost use Rattle.task_types.specs.Task;

use named_data::same_sort;
use rapid_model::{NameText, Sort};
use rule_checks::TypeFault;
use std::alloc::Global;
use typed_trees::SlotRow;

/// The names of the data of type syncident. Fails only if an allocation fails.
pub(crate) fn meeting_names(alloc: Global, slots: &[SlotRow]) -> Result<Vec<NameText>, TypeFault>
    ensures { Gives (λ v. v.items) result (Ok (Task.meeting_names (map view_slot slots.now))) }
{
    let mut names = Vec::new(alloc);
    for slot in slots {
        if same_sort(slot.sort, Sort::SyncIdent) {
            names.push(slot.name.copy())?;
        }
    }
    Ok(names)
}
