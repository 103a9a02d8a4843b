ghost use Rattle.std.specs.Prelude.{◌≡◌, ℕ, Bool, false, IsTrue, List, length, map, is_some, Some, slice_get};
ghost use Rattle.rapid_num.specs.declared.joints.Joints.{Joints};
ghost use Rattle.rapid_model.specs.CellData.{CellData};
ghost use Rattle.rapid_model.specs.Own.{has_ended, is_trapped};
ghost use Rattle.rapid_model.specs.Requests.{suits_actor};
ghost use Rattle.rapid_model.specs.declared.answer.Answer.{Answer};
ghost use Rattle.rapid_model.specs.declared.event.Event.{Event};
ghost use Rattle.rapid_model.specs.declared.request.Request.{Request};
ghost use Rattle.rapid_model.specs.declared.request.Request.TheVariants as requests;
ghost use Rattle.rapid_model.specs.declared.task_row.TaskRow.{TaskRow};
ghost use Rattle.typed_trees.specs.Plain.{TypedTree};
ghost use Rattle.rapid_meaning.specs.Answering.{Asking};
ghost use Rattle.rapid_meaning.specs.Data.{Data};
ghost use Rattle.rapid_meaning.specs.Runs.{FitsSteps, asks, asked_after, data_after, state_after};
ghost use Rattle.tree_typing.specs.Asked.{IsAsked};
ghost use Rattle.tree_typing.specs.Constants.{KeepsConstants};
ghost use Rattle.tree_typing.specs.Goes.{AreTyped, Goes};
ghost use Rattle.tree_typing.specs.Numbered.{Numbered};
ghost use Rattle.tree_typing.specs.OwnEvents.{AreFit, AreOwn, own_events};
ghost use Rattle.tree_typing.specs.WellTyped.{WellTyped};

/// A law: after any answers that fit step by step, a well typed task with its cell's numbers asks, or has ended. Its
/// data have the types that its tree names; values are complete, and so are places passed by reference. What it asks
/// exists: elements and parts of persistents with their types, and signals. It asks for its arm only if it has one, for
/// setpoints only outside traps, and Leave only in a trap.
pub fn well_typed_tasks_go_on()
    ensures goes { (signals : ℕ) (cell : CellData) (number : ℕ) (tree : TypedTree) (answers : List Answer) → WellTyped signals tree → Numbered cell number tree → FitsSteps tree answers → Goes (asked_after tree answers) }
    ensures typed { (signals : ℕ) (cell : CellData) (number : ℕ) (tree : TypedTree) (answers : List Answer) (d : Data) → WellTyped signals tree → Numbered cell number tree → data_after tree answers ≡ Some d → AreTyped tree d }
    ensures asked { (signals : ℕ) (cell : CellData) (number : ℕ) (tree : TypedTree) (answers : List Answer) (request : Request) (d : Data) → WellTyped signals tree → Numbered cell number tree → state_after tree answers ≡ Asking request d → IsAsked (record { signals = signals; tree = tree }) d request }
{}

/// A law: a well typed task with its cell's numbers asks only what the cell and its own events so far allow. The cell
/// gives its persistents, signals, meetings and tasks, and the task's arm. After Hold it asks Rise and nothing else; it
/// asks Leave only in a trap, and nothing after End. A task's own events are its requests with their answers: each
/// request is the one that the tree asks after the answers before it.
pub fn requests_suit_the_task()
    ensures suits { (cell : CellData) (number : ℕ) (row : TaskRow) (tree : TypedTree) (answers : List Answer) (request : Request) → slice_get cell.tasks number ≡ Some row → WellTyped (length cell.signals) tree → Numbered cell number tree → asked_after tree answers ≡ asks request → IsTrue (suits_actor cell number (own_events number tree answers) request) }
    ensures own { (number : ℕ) (tree : TypedTree) (mine : List Event) → AreOwn number tree mine → mine ≡ own_events number tree (map (λ (e : Event). e.answer) mine) }
{}

/// A law: if the answers in the own events of a well typed task with its cell's numbers fit by the cell, they fit its
/// tree, and the task goes on asking until its End.
pub fn tasks_ask_until_their_end()
    ensures fits { (signals : ℕ) (cell : CellData) (number : ℕ) (tree : TypedTree) (mine : List Event) → WellTyped signals tree → Numbered cell number tree → AreOwn number tree mine → AreFit cell number mine → FitsSteps tree (map (λ (e : Event). e.answer) mine) }
    ensures asks { (signals : ℕ) (cell : CellData) (number : ℕ) (tree : TypedTree) (mine : List Event) → WellTyped signals tree → Numbered cell number tree → AreOwn number tree mine → AreFit cell number mine → has_ended mine ≡ false → (request : Request) × (asked_after tree (map (λ (e : Event). e.answer) mine) ≡ asks request) }
{}

/// A law: by its own events, a well typed task of a cell asks for no setpoint between a Trap and its Leave.
pub fn no_setpoint_in_a_trap()
    ensures { (cell : CellData) (number : ℕ) (tree : TypedTree) (answers : List Answer) (to : Joints) → WellTyped (length cell.signals) tree → Numbered cell number tree → asked_after tree answers ≡ asks (requests.Setpoint to) → is_trapped (own_events number tree answers) ≡ false }
{}

/// A law: after any answers, the data of a well typed task hold its constant arrays as declared, those of the modules
/// and those of the routine in each frame.
pub fn constants_stay()
    ensures { (signals : ℕ) (cell : CellData) (number : ℕ) (tree : TypedTree) (answers : List Answer) (d : Data) → WellTyped signals tree → Numbered cell number tree → data_after tree answers ≡ Some d → KeepsConstants tree d }
{}
