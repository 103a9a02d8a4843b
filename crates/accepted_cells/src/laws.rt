ghost use Rattle.std.specs.Prelude.{All, Bool, IsTrue, List, Ok, Some, false, is_some, length, map, slice_get, ℕ, ◌≡◌, ◌≤◌};
ghost use Rattle.rapid_model.specs.Own.{has_ended};
ghost use Rattle.rapid_model.specs.Requests.{suits_actor};
ghost use Rattle.rapid_model.specs.Limits.{is_axes};
ghost use Rattle.rapid_model.specs.ScriptData.{IsScript, ScriptData};
ghost use Rattle.rapid_model.specs.declared.answer.Answer.{Answer};
ghost use Rattle.rapid_model.specs.declared.event.Event.{Event};
ghost use Rattle.rapid_model.specs.declared.request.Request.{Request};
ghost use Rattle.rapid_model.specs.declared.script_task.ScriptTask.{ScriptTask};
ghost use Rattle.rapid_model.specs.declared.signal_row.SignalRow.{SignalRow};
ghost use Rattle.rapid_model.specs.declared.task_row.TaskRow.{TaskRow};
ghost use Rattle.raw_trees.specs.Plain.{PlainModule};
ghost use Rattle.typed_trees.specs.Plain.{TypedTree};
ghost use Rattle.task_types.specs.Task.{routines_of};
ghost use Rattle.type_laws.specs.Tasks.{IsTyped};
ghost use Rattle.cell_assembly.specs.Made.{MadeCell, make_cell};
ghost use Rattle.rapid_meaning.specs.Data.{Data};
ghost use Rattle.rapid_meaning.specs.Runs.{FitsSteps, asked_after, asks, data_after};
ghost use Rattle.tree_typing.specs.Constants.{KeepsConstants};
ghost use Rattle.tree_typing.specs.Goes.{Goes};
ghost use Rattle.tree_typing.specs.Numbered.{Numbered};
ghost use Rattle.tree_typing.specs.OwnEvents.{AreFit, AreOwn, own_events};
ghost use Rattle.tree_typing.specs.WellTyped.{WellTyped};
ghost use Rattle.name_laws.specs.Jumps.{LabelsApart};
ghost use Rattle.code_laws.specs.Orderly.{NumbersLabels};
ghost use Rattle.code_laws.specs.Standing.{StandsBy};
ghost use Rattle.accepted_cells.specs.Accepted.{AreRead, IsAccepted};
ghost use Rattle.accepted_cells.specs.Traps.{TrapsTakeNothing};
ghost use Rattle.rapid_meaning.specs.Answering.{Asking};
ghost use Rattle.stack_code.specs.CodeRuns.{code_after};
ghost use Rattle.stack_code.specs.Compiled.{compiled};
ghost use Rattle.task_code.specs.Live.{CodeFits};
ghost use Rattle.code_laws.specs.Checked.{IsChecked};
ghost use Rattle.cell_meaning.specs.Premises.{TasksAskWell};
ghost use Rattle.rapid_meaning.specs.Asking.{tree_asks};
ghost use Rattle.task_code.specs.Asking.{CodeAsks};
ghost use Rattle.cell_crew.specs.Courses.{SuitTasks};
ghost use Rattle.cell_crew.specs.Crew.{AskAsPrograms};
ghost use Rattle.accepted_cells.specs.FitsTask.{FitsTask};

/// A law: a tree that is right by the typing rules is well typed, with as many signals as it was checked with. No TRAP
/// of its modules has parameters, which holds of all modules read from texts, and its arm has six to twelve axes, or
/// none if there is no arm.
pub fn accepted_tasks_are_well_typed()
    ensures { (modules : List PlainModule) (tasks : List (List ℕ)) (signals : List SignalRow) (axes : ℕ) (tree : TypedTree) → IsTyped modules tasks signals axes tree → TrapsTakeNothing modules → IsTrue (is_axes axes) → WellTyped (length signals) tree }
{}

/// A law: modules that texts spell have no TRAP with parameters.
pub fn read_traps_take_nothing()
    ensures { (modules : List PlainModule) → AreRead modules → TrapsTakeNothing modules }
{}

/// A law: if a cell is made from a script within its limits and the trees of the script's tasks, each tree with the
/// cell's numbers is numbered for its task: each of its persistents and meetings has the number of one of the cell's, a
/// persistent of the same type and length, and its arm is the task's. It is well typed if it was so before.
pub fn made_cells_number_their_trees()
    ensures numbered { (script : ScriptData) (trees : List TypedTree) (made : MadeCell) (number : ℕ) (tree : TypedTree) → IsScript script → length trees ≡ length script.tasks → make_cell script trees ≡ Ok made → slice_get made.trees number ≡ Some tree → tree.tasks ≡ map (λ (task : ScriptTask). task.name) script.tasks → ((task : ScriptTask) → slice_get script.tasks number ≡ Some task → tree.axes ≡ task.axes) → Numbered made.cell number tree }
    ensures typed { (script : ScriptData) (trees : List TypedTree) (made : MadeCell) (signals : ℕ) (number : ℕ) (before : TypedTree) (tree : TypedTree) → make_cell script trees ≡ Ok made → slice_get trees number ≡ Some before → slice_get made.trees number ≡ Some tree → WellTyped signals before → WellTyped signals tree }
{}

/// A law: each tree of an accepted cell is well typed for its task's row and has the cell's numbers. So after any
/// answers that fit step by step, the task asks until its End, and asks only what it may ask by the cell and its own
/// events so far. A cell is accepted if the script keeps its limits, the texts spell modules, the modules check, and
/// the cell is made.
pub fn accepted_tasks_go_on()
    ensures right { (script : ScriptData) (made : MadeCell) (number : ℕ) (tree : TypedTree) → IsAccepted script made → slice_get made.trees number ≡ Some tree → (row : TaskRow) × (slice_get made.cell.tasks number ≡ Some row) × WellTyped (length made.cell.signals) tree × Numbered made.cell number tree }
    ensures goes { (script : ScriptData) (made : MadeCell) (number : ℕ) (tree : TypedTree) (answers : List Answer) → IsAccepted script made → slice_get made.trees number ≡ Some tree → FitsSteps tree answers → Goes (asked_after tree answers) }
    ensures until { (script : ScriptData) (made : MadeCell) (number : ℕ) (tree : TypedTree) (mine : List Event) → IsAccepted script made → slice_get made.trees number ≡ Some tree → AreOwn number tree mine → AreFit made.cell number mine → has_ended mine ≡ false → (request : Request) × (asked_after tree (map (λ (e : Event). e.answer) mine) ≡ asks request) }
    ensures suits { (script : ScriptData) (made : MadeCell) (number : ℕ) (tree : TypedTree) (answers : List Answer) (request : Request) → IsAccepted script made → slice_get made.trees number ≡ Some tree → asked_after tree answers ≡ asks request → IsTrue (suits_actor made.cell number (own_events number tree answers) request) }
{}

/// A law: after any answers, the data of each task of an accepted cell hold its constant arrays as they were declared,
/// those of the modules and those of each active routine.
pub fn accepted_tasks_keep_constants()
    ensures { (script : ScriptData) (made : MadeCell) (number : ℕ) (tree : TypedTree) (answers : List Answer) (d : Data) → IsAccepted script made → slice_get made.trees number ≡ Some tree → data_after tree answers ≡ Some d → KeepsConstants tree d }
{}

/// A law: a tree that is right by the typing rules has the labels of each of its routines numbered in text order, from
/// 0, through its list and its ERROR part. The labels of a routine stand at different bytes, which holds of all modules
/// read from texts.
pub fn accepted_trees_number_their_labels()
    ensures { (modules : List PlainModule) (tasks : List (List ℕ)) (signals : List SignalRow) (axes : ℕ) (tree : TypedTree) → IsTyped modules tasks signals axes tree → All LabelsApart (routines_of modules) → All NumbersLabels tree.routines }
{}

/// A law: in modules that texts spell, the labels of each routine stand at different bytes.
pub fn read_labels_stand_apart()
    ensures { (modules : List PlainModule) → AreRead modules → All LabelsApart (routines_of modules) }
{}

/// A law: after any answers that fit step by step, the compiled code of each tree of an accepted cell is in the same
/// state as the tree: after some number of operations, and after any more, it asks the same or has ended too, with the
/// same data.
pub fn accepted_tasks_run_as_code()
    ensures { (script : ScriptData) (made : MadeCell) (number : ℕ) (tree : TypedTree) (answers : List Answer) → IsAccepted script made → slice_get made.trees number ≡ Some tree → FitsSteps tree answers → (k : ℕ) × StandsBy tree answers k }
{}

/// A law: each tree of an accepted cell is checked, which is all that `compile` requires. What its code asks, after any
/// answers that fit step by step, its task may ask by the cell and its own events so far.
pub fn accepted_trees_are_checked()
    ensures checked { (script : ScriptData) (made : MadeCell) (number : ℕ) (tree : TypedTree) → IsAccepted script made → slice_get made.trees number ≡ Some tree → IsChecked tree }
    ensures suits { (script : ScriptData) (made : MadeCell) (number : ℕ) (tree : TypedTree) (answers : List Answer) (k : ℕ) (request : Request) (d : Data) → IsAccepted script made → slice_get made.trees number ≡ Some tree → CodeFits (compiled tree) answers → code_after (compiled tree) k answers ≡ Asking request d → IsTrue (suits_actor made.cell number (own_events number tree answers) request) }
{}

/// A law: each task of an accepted cell asks only what it may, and asks something until its End, whatever the other
/// tasks and the input script do.
pub fn accepted_tasks_ask_well()
    ensures { (script : ScriptData) (made : MadeCell) → IsAccepted script made → TasksAskWell (tree_asks made.trees) made.cell }
{}

/// A law: after answers that fit the compiled code of its tree, each task of an accepted cell asks what its code asks,
/// and nothing else.
pub fn accepted_tasks_ask_as_their_code()
    ensures { (script : ScriptData) (made : MadeCell) → IsAccepted script made → AskAsPrograms CodeFits CodeAsks (tree_asks made.trees) (map compiled made.trees) }
{}

/// A law: the compiled code of each task of an accepted cell suits its task by the task's own events alone, whatever
/// the other tasks and the input script do. If the code asks each request after the answers so far, and each answer
/// fits its request, then the answers fit the code, and the task may ask what the code asks next.
pub fn accepted_code_suits_its_task()
    ensures { (script : ScriptData) (made : MadeCell) → IsAccepted script made → SuitTasks CodeFits CodeAsks made.cell (map compiled made.trees) }
{}

/// A law: the compiled code of each task of an accepted cell fits its task. After answers that fit the code step by
/// step, the task may ask what the code asks next, by the cell and its own events so far. A trap that it connects is a
/// trap routine of the code. A persistent that it names has a row in the code, and the code's rows for it give its type
/// in the cell.
pub fn accepted_code_fits_its_task()
    ensures { (script : ScriptData) (made : MadeCell) (task : ℕ) (tree : TypedTree) → IsAccepted script made → slice_get made.trees task ≡ Some tree → FitsTask (compiled tree) made.cell task }
{}
