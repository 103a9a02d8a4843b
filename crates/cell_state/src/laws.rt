ghost use Rattle.std.specs.Prelude.{◌≡◌, ◌++◌, ◌∷◌, ℕ, false, All, List, [], Option, Some, flat_map, length, map, option_map, slice_get, slice_index_or};
ghost use Rattle.rapid_model.specs.CellData.{CellData, IsCell};
ghost use Rattle.rapid_model.specs.declared.at.At.{At};
ghost use Rattle.rapid_model.specs.declared.event.Event.{Event};
ghost use Rattle.rapid_model.specs.declared.path.Path.{Path};
ghost use Rattle.rapid_model.specs.declared.pers_cell.PersCell.{PersCell};
ghost use Rattle.rapid_model.specs.declared.request.Request.TheVariants.{WriteP};
ghost use Rattle.rapid_model.specs.declared.value.Value.{Value};
ghost use Rattle.typed_trees.specs.Plain.{TypedSlot, TypedTree};
ghost use Rattle.stack_code.specs.Compiled.{compiled};
ghost use Rattle.task_code.specs.Asking.{CodeAsks};
ghost use Rattle.task_code.specs.Live.{CodeFits};
ghost use Rattle.code_laws.specs.Checked.{IsChecked};
ghost use Rattle.cell_meaning.specs.Asking.{with_inputs};
ghost use Rattle.cell_meaning.specs.Histories.{IsLegal};
ghost use Rattle.cell_meaning.specs.Premises.{AsksWhatItMay, StartsFull};
ghost use Rattle.cell_meaning.specs.Stored.{value_at};
ghost use Rattle.cell_crew.specs.Courses.{SuitTasks};
ghost use Rattle.cell_crew.specs.Crew.{AskAsPrograms};
ghost use Rattle.cell_state.specs.Codes.{IsStateByCodes};
ghost use Rattle.cell_state.specs.States.{CellStateData, IsStateAfter, TaskStateData};
ghost use Rattle.cell_state.specs.Traces.{IsAskedAt, event_place};
ghost use Rattle.cell_state.specs.Writes.{is_written};

use cell_meaning::Askers;
use code_laws::compiled_code_is_live;

/// A law: after a legal history of tasks that ask what the compiled code of their trees asks, which suits them, the
/// state that the code gives is the one that the trees give.
pub fn code_states_are_tree_states<A: Askers>()
    ensures { (cell : CellData) (trees : List TypedTree) (history : List Event) (state : CellStateData) → length trees ≡ length cell.tasks → All IsChecked trees → AskAsPrograms CodeFits CodeAsks A.asks (map compiled trees) → SuitTasks CodeFits CodeAsks cell (map compiled trees) → IsLegal (with_inputs A.asks cell) cell history → IsStateByCodes cell (map compiled trees) history state → IsStateAfter cell trees history state }
{
    compiled_code_is_live();
}

/// A law: after a legal history of such tasks, the place at which the code asks an event is that of the tree.
pub fn code_places_are_tree_places<A: Askers>()
    ensures { (cell : CellData) (trees : List TypedTree) (before : List Event) (e : Event) (place : Option At) → length trees ≡ length cell.tasks → All IsChecked trees → AskAsPrograms CodeFits CodeAsks A.asks (map compiled trees) → SuitTasks CodeFits CodeAsks cell (map compiled trees) → IsLegal (with_inputs A.asks cell) cell before → IsAskedAt (map compiled trees) before e place → place ≡ event_place trees before e }
{
    compiled_code_is_live();
}

/// A law: before the first event the persistents and the module data hold their first values.
pub fn first_state_has_first_values()
    ensures pers { (cell : CellData) (trees : List TypedTree) (state : CellStateData) → IsStateAfter cell trees [] state → state.pers ≡ map (λ (row : PersCell). row.first) cell.pers }
    ensures data { (cell : CellData) (trees : List TypedTree) (state : CellStateData) (task : ℕ) (tree : TypedTree) (here : TaskStateData) → IsStateAfter cell trees [] state → slice_get trees task ≡ Some tree → slice_get state.tasks task ≡ Some here → here.values ≡ flat_map (λ (row : TypedSlot). row.first) tree.slots }
{}

/// A law: after a legal history a part of a persistent holds the value that was last written to it, if nothing of the
/// persistent was written since; and a persistent that no event wrote holds its first values.
pub fn last_write_is_shown<A: Askers>()
    ensures written { (cell : CellData) (trees : List TypedTree) (before after : List Event) (e : Event) (state : CellStateData) (pers : ℕ) (path : Path) (value : Value) → IsCell cell → StartsFull cell → AsksWhatItMay A.asks cell → IsLegal A.asks cell (before ++ e ∷ after) → IsStateAfter cell trees (before ++ e ∷ after) state → e.request ≡ WriteP pers path value → is_written pers after ≡ false → value_at (slice_index_or state.pers pers []) path ≡ Some value }
    ensures unwritten { (cell : CellData) (trees : List TypedTree) (history : List Event) (state : CellStateData) (pers : ℕ) → IsStateAfter cell trees history state → is_written pers history ≡ false → slice_get state.pers pers ≡ option_map (λ (row : PersCell). row.first) (slice_get cell.pers pers) }
{}
