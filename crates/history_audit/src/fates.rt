//! The fates that are given with a history.

ghost use Rattle.std.specs.Prelude.{◌≡◌, ◌<◌, ◌≤◌, ◌↔◌, ℕ, None, IfSome, IsTrue, length};
ghost use Rattle.cell_meaning.specs.Asking.{with_inputs};
ghost use Rattle.cell_meaning.specs.Fates.{fate_after};
ghost use Rattle.cell_meaning.specs.Histories.{IsLegal, IsWhole};
ghost use Rattle.history_audit.specs.Audits.{IsFirstWrongFate, IsWrongFate};

use crate::parts::same_fate;
use cell_core::Core;
use cell_meaning::Askers;
use rapid_model::Fate;

/// The first task whose given fate is wrong, by its number from 0. `whole`: whether no event can follow the core's
/// history; if one can, each given fate is wrong.
pub(crate) fn wrong_fate<A: Askers>(core: &Core, whole: bool, fates: &[Fate]) -> Option<u32>
    requires few { length fates.now ≤ length core.now.cell.tasks }
    requires legal { IsLegal (with_inputs A.asks core.now.cell) core.now.cell core.now.history }
    requires whole { IsTrue whole ↔ IsWhole (with_inputs A.asks core.now.cell) core.now.cell core.now.history }
    ensures wrong { IfSome result (λ task. IsFirstWrongFate (with_inputs A.asks core.now.cell) core.now.cell core.now.history fates.now task) }
    ensures right { result ≡ None → (task : ℕ) → ¬ IsWrongFate (with_inputs A.asks core.now.cell) core.now.cell core.now.history fates.now task }
{
    // There are few tasks.
    let _tasks = core.task_count();
    for (task, fate) in fates.iter().enumerate() {
        if !is_fate(core, whole, task as u32, fate) {
            return Some(task as u32);
        }
    }
    None
}

/// Whether the run is over and this is the task's fate.
fn is_fate(core: &Core, whole: bool, task: u32, fate: &Fate) -> bool
    requires { task < length core.now.cell.tasks }
    ensures { IsTrue result ↔ (IsTrue whole × (fate.now ≡ fate_after core.now.cell core.now.history task)) }
{
    whole && same_fate(fate, &core.fate(task))
}
