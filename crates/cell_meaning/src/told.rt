//! Laws on single events and on what holds since one, in other words than the definitions that the boards keep.
ghost use Rattle.std.specs.Prelude.{◌≡◌, ◌<◌, ◌≤◌, ◌↔◌, ℕ, Bool, List, [], ◌∷◌, ◌++◌, length, IsTrue, false, Some, slice_get};
ghost use Rattle.rapid_model.specs.CellData.{CellData};
ghost use Rattle.rapid_model.specs.Own.{part_of, end_of, has_ended};
ghost use Rattle.rapid_model.specs.declared.answer.Answer.TheVariants as answers;
ghost use Rattle.rapid_model.specs.declared.event.Event.{Event};
ghost use Rattle.rapid_model.specs.declared.fate.Fate.{Fate};
ghost use Rattle.rapid_model.specs.declared.fate.Fate.TheVariants.{Cut, Held};
ghost use Rattle.rapid_model.specs.declared.input_row.InputRow.{InputRow};
ghost use Rattle.rapid_model.specs.declared.request.Request.TheVariants as requests;
ghost use Rattle.cell_meaning.specs.Answers.{IsAnswer};
ghost use Rattle.cell_meaning.specs.Counted.{counted};
ghost use Rattle.cell_meaning.specs.Fates.{fate_after, is_spent};
ghost use Rattle.cell_meaning.specs.Interrupts.{interrupts_of};
ghost use Rattle.cell_meaning.specs.InterruptsSince.{BeginsTrap, Connects, Deletes, Disables, Enables};
ghost use Rattle.cell_meaning.specs.Premises.{AllAnswered};
ghost use Rattle.cell_meaning.specs.Setting.{may_set};
ghost use Rattle.cell_meaning.specs.SignalsSince.{SetsAnew, WritesSignal};
ghost use Rattle.cell_meaning.specs.Since.{Since, IsEvent};
ghost use Rattle.cell_meaning.specs.Stored.{signal_after, signals_after};
ghost use Rattle.cell_meaning.specs.Turns.{IsRound};

use crate::askers::Askers;

/// A law: in a round the input script's event is the last.
pub fn script_comes_last<A: Askers>()
    ensures { (cell : CellData) (before after front back : List Event) (e : Event) → IsRound A.asks cell before after → after ≡ before ++ front ++ e ∷ back → e.actor ≡ length cell.tasks → back ≡ [] }
{}

/// A law: a run is spent exactly if a task has not ended and no step is left. A task that has ended has the fate that it
/// ended with; one that has not is Cut if no step is left, and otherwise Held.
pub fn fates_are_as_ended()
    ensures spent { (cell : CellData) (history : List Event) → IsTrue (is_spent cell history) ↔ ((task : ℕ) × (task < length cell.tasks) × (has_ended (part_of task history) ≡ false)) × (cell.steps ≤ counted history) }
    ensures ended { (cell : CellData) (history : List Event) (task : ℕ) (fate : Fate) → end_of (part_of task history) ≡ Some fate → fate_after cell history task ≡ fate }
    ensures cut { (cell : CellData) (history : List Event) (task : ℕ) → task < length cell.tasks → has_ended (part_of task history) ≡ false → cell.steps ≤ counted history → fate_after cell history task ≡ Cut }
    ensures held { (cell : CellData) (history : List Event) (task : ℕ) → has_ended (part_of task history) ≡ false → counted history < cell.steps → fate_after cell history task ≡ Held }
{}

/// A law: a write and an input set their signal and no other. An event that may set none (`may_set`) leaves all signals
/// as they are: so does one that frees a zone or switches it off.
pub fn signals_are_as_set()
    ensures written { (cell : CellData) (history : List Event) (actor signal : ℕ) (value : Bool) (e : Event) → IsEvent actor (requests.WriteS signal value) answers.Ok e → signal < length cell.signals → signal_after cell (history ++ e ∷ []) signal ≡ value }
    ensures unwritten { (cell : CellData) (history : List Event) (actor signal other : ℕ) (value : Bool) (e : Event) → IsEvent actor (requests.WriteS signal value) answers.Ok e → (other ≡ signal → ⊥) → signal_after cell (history ++ e ∷ []) other ≡ signal_after cell history other }
    ensures fed { (cell : CellData) (history : List Event) (actor index : ℕ) (row : InputRow) (e : Event) → IsEvent actor (requests.Input index) answers.Ok e → slice_get cell.inputs index ≡ Some row → row.signal < length cell.signals → signal_after cell (history ++ e ∷ []) row.signal ≡ row.value }
    ensures unfed { (cell : CellData) (history : List Event) (actor index other : ℕ) (row : InputRow) (e : Event) → IsEvent actor (requests.Input index) answers.Ok e → slice_get cell.inputs index ≡ Some row → (other ≡ row.signal → ⊥) → signal_after cell (history ++ e ∷ []) other ≡ signal_after cell history other }
    ensures kept { (cell : CellData) (history : List Event) (e : Event) → may_set e.request e.answer ≡ false → signals_after cell (history ++ e ∷ []) ≡ signals_after cell history }
{}

/// A law: a signal has the value that a task last wrote to it, unless the input script has set it since or a zone was
/// given with it as output. No move changes it, nor does a zone of another output.
pub fn written_signals_stay()
    ensures { (cell : CellData) (history : List Event) (signal : ℕ) (value : Bool) → AllAnswered cell history → signal < length cell.signals → Since (WritesSignal signal value) (SetsAnew cell signal) history → signal_after cell history signal ≡ value }
{}

/// A law: once a task is told of a flood, it is told so for good.
pub fn floods_stay()
    ensures { (cell : CellData) (before later : List Event) (task : ℕ) → task < length cell.tasks → AllAnswered cell (before ++ later) → IsAnswer cell before task requests.Look answers.Flood → IsAnswer cell (before ++ later) task requests.Look answers.Flood }
{}

/// A law: what is queued stays queued, in its order, unless a trap of the task begins or it deletes a number.
pub fn queues_stay()
    ensures { (cell : CellData) (history : List Event) (e : Event) (task : ℕ) → task < length cell.tasks → AllAnswered cell (history ++ e ∷ []) → ¬ BeginsTrap task history e → ((number : ℕ) → ¬ Deletes task number history e) → (more : List ℕ) × ((interrupts_of cell (history ++ e ∷ []) task).queue ≡ (interrupts_of cell history task).queue ++ more) }
{}

/// A law: no trap of a task begins from its Disable until its Enable, whether a trap ends in between or not.
pub fn disabled_tasks_begin_no_trap()
    ensures { (cell : CellData) (history : List Event) (task number trap : ℕ) → AllAnswered cell history → task < length cell.tasks → Since (Disables task) (Enables task) history → ¬ IsAnswer cell history task requests.Look (answers.Trap number trap) }
{}

/// A law: a new number is the least one, from 1, that is not connected.
pub fn new_numbers_are_least()
    ensures some { (cell : CellData) (history : List Event) (task old trap number : ℕ) → AllAnswered cell history → task < length cell.tasks → IsAnswer cell history task (requests.Connect old trap) (answers.Number number) → 1 ≤ number }
    ensures free { (cell : CellData) (history : List Event) (task old trap number other : ℕ) → AllAnswered cell history → task < length cell.tasks → IsAnswer cell history task (requests.Connect old trap) (answers.Number number) → ¬ Since (Connects task number other) (Deletes task number) history }
    ensures least { (cell : CellData) (history : List Event) (task old trap number lower : ℕ) → AllAnswered cell history → task < length cell.tasks → IsAnswer cell history task (requests.Connect old trap) (answers.Number number) → 1 ≤ lower → lower < number → (other : ℕ) × Since (Connects task lower other) (Deletes task lower) history }
{}
