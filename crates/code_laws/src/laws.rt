ghost use Rattle.std.specs.Prelude.{All, Bool, IsTrue, List, length, ℕ, ◌↔◌, ◌≡◌};
ghost use Rattle.rapid_model.specs.CellData.{CellData};
ghost use Rattle.rapid_model.specs.declared.answer.Answer.{Answer};
ghost use Rattle.typed_trees.specs.Plain.{TypedExpr, TypedRoutine, TypedTree};
ghost use Rattle.rapid_meaning.specs.Runs.{FitsSteps};
ghost use Rattle.tree_typing.specs.Numbered.{Numbered};
ghost use Rattle.tree_typing.specs.WellTyped.{WellTyped};
ghost use Rattle.code_laws.specs.Orderly.{IsOrderly, NumbersLabels};
ghost use Rattle.code_laws.specs.Standing.{Simulates, StandsBy};
ghost use Rattle.typed_trees.specs.declared.datum.Datum.{Datum};
ghost use Rattle.stack_code.specs.CodeData.{CodeData};
ghost use Rattle.stack_code.specs.Compiled.{compiled, placed_in};
ghost use Rattle.stack_code.specs.Confs.{Running, Saved};
ghost use Rattle.stack_code.specs.Placed.{Own, Placed, StandsAt};
ghost use Rattle.code_laws.specs.Calls.{Takes};
ghost use Rattle.code_laws.specs.Parts.{CallDoes, ExprDoes, ExprStands};
ghost use Rattle.code_laws.specs.Routines.{HasRoutines, extended};
ghost use Rattle.task_code.specs.Armless.{is_armless};
ghost use Rattle.task_code.specs.Live.{CodeFits, IsLive};
ghost use Rattle.code_laws.specs.Checked.{IsChecked};

/// A law: a well typed tree whose labels are numbered in text order in each routine is orderly: its calls pass as many
/// arguments as there are parameters, its statements call only procedures, and its traps and its main have no
/// parameters.
pub fn well_typed_trees_are_orderly()
    ensures { (signals : ℕ) (tree : TypedTree) → WellTyped signals tree → All NumbersLabels tree.routines → IsOrderly tree }
{}

/// A law: after any answers compiled code is in the same state as its tree: within some number of operations, and
/// within any larger number, it asks the same or has ended too, with the same data. This holds for every orderly tree,
/// unless the tree misfits. A well typed tree with its cell's numbers never misfits after answers that fit step by
/// step.
pub fn compiled_code_asks_as_its_tree()
    ensures stands { (tree : TypedTree) → IsOrderly tree → Simulates tree }
    ensures goes { (signals : ℕ) (cell : CellData) (number : ℕ) (tree : TypedTree) (answers : List Answer) → WellTyped signals tree → Numbered cell number tree → All NumbersLabels tree.routines → FitsSteps tree answers → (k : ℕ) × StandsBy tree answers k }
{}

/// A law: the code of an expression, anywhere in code that has the routines of an orderly tree, does what the
/// expression does. This holds above any operands that leave it room, above any frames, and however deep parts of the
/// program nest. Execution continues after it, with the value pushed on the operands, or with the error as one of the
/// statement that owns the code.
pub fn expression_code_does_as_its_expression()
    ensures { (tree : TypedTree) (code : CodeData) (routine : TypedRoutine) (own : Own) (pc : ℕ) (e : TypedExpr) (stack : List Datum) (frame : Running) (saved : List Saved) (depth : ℕ) → IsOrderly tree → HasRoutines tree code → ExprStands tree code routine own pc e (length stack) → ExprDoes tree code routine own pc e stack frame saved depth }
{}

/// A law: in such code a routine that is entered with as many arguments as it has parameters does what its call does.
/// Execution then returns to what was saved, with the result, or with the error that left the routine.
pub fn routine_code_does_as_its_routine()
    ensures { (tree : TypedTree) (code : CodeData) (number : ℕ) (args : List Datum) (saved : List Saved) (depth : ℕ) → IsOrderly tree → HasRoutines tree code → Takes tree number (length args) → CallDoes tree code number args saved depth }
{}

/// A law: the code that an orderly tree compiles to has the tree's routines, also with any operations appended, which
/// then follow it.
pub fn compiled_code_has_its_routines()
    ensures whole { (tree : TypedTree) → IsOrderly tree → HasRoutines tree (compiled tree) }
    ensures longer { (tree : TypedTree) (more : List Placed) (room : ℕ) → IsOrderly tree → HasRoutines tree (extended tree more room) }
    ensures behind { (tree : TypedTree) (more : List Placed) (room : ℕ) → StandsAt (extended tree more room) (length (placed_in tree)) more }
{}

/// A law: the code of a checked tree is live. The answers that fit the tree step by step are those that fit its code.
/// After them code is in the same state as the tree, within some number of operations and within any larger number.
pub fn compiled_code_is_live()
    ensures live { (tree : TypedTree) → IsChecked tree → IsLive (compiled tree) }
    ensures fits { (tree : TypedTree) (answers : List Answer) → IsChecked tree → CodeFits (compiled tree) answers ↔ FitsSteps tree answers }
    ensures stands { (tree : TypedTree) (answers : List Answer) → IsChecked tree → FitsSteps tree answers → (k : ℕ) × StandsBy tree answers k }
{}

/// A law: in the code of a well typed tree of a task without an arm, no operation needs one.
pub fn code_without_an_arm_needs_none()
    ensures { (signals : ℕ) (tree : TypedTree) → WellTyped signals tree → tree.axes ≡ 0 → IsTrue (is_armless (compiled tree).ops) }
{}
