//! Theorems only: the number that a name means is that of a declaration of the name, and its row in a task's typed tree
//! is the row of that declaration; each GOTO has one label.
#![tactic(auto)]

ghost use Rattle.std.specs.Prelude.{◌≡◌, ◌<◌, ℕ, Bool, List, Ok, Some, true, length, slice_get};
ghost use Rattle.raw_trees.specs.Plain.{PlainModule, PlainRoutine, Routine};
ghost use Rattle.rapid_model.specs.declared.signal_row.SignalRow.{SignalRow};
ghost use Rattle.rule_checks.specs.declared.spot.Spot.{Spot};
ghost use Rattle.typed_trees.specs.Plain.{TypedRoutine, TypedTree};
ghost use Rattle.typed_trees.specs.Labels.{numbers_in_routine};
ghost use Rattle.data_scopes.specs.declared.meant.Meant.{Meant};
ghost use Rattle.data_scopes.specs.declared.meant.Meant.TheVariants as meants;
ghost use Rattle.data_scopes.specs.Meetings.{is_meeting};
ghost use Rattle.data_scopes.specs.Naming.{names_of};
ghost use Rattle.data_scopes.specs.Numbers.{tables_of};
ghost use Rattle.data_scopes.specs.Scopes.{Names, meaning};
ghost use Rattle.decl_types.specs.Data.{Progress, beginning, data_of};
ghost use Rattle.task_types.specs.Task.{task_of};
ghost use Rattle.name_laws.specs.Constants.{IsConst};
ghost use Rattle.name_laws.specs.Declared.{StandsIn};
ghost use Rattle.name_laws.specs.Jumps.{AreApart, AreInOrder, JumpsLand, LabelsApart};
ghost use Rattle.name_laws.specs.Meant.{HasItsRow};
ghost use Rattle.name_laws.specs.Meetings.{IsMeeting};

/// If a name means a VAR, a PERS, a routine, a parameter or a datum of a routine, the variable of a FOR, or a signal,
/// its number has a row in the typed tree of the task's modules, and it is the row of a declaration of that name that
/// is visible there. A FOR is the nearest one with that variable around the spot, and the row of its routine has a
/// place for it.
pub fn numbers_have_their_rows()
    ensures { (modules : List PlainModule) (tasks : List (List ℕ)) (signals : List SignalRow) (axes : ℕ) (tree : TypedTree) → task_of modules tasks signals axes ≡ Ok tree → (spot : Spot) (name : List ℕ) (meant : Meant) → meaning (tables_of modules signals) spot name ≡ Some meant → HasItsRow modules signals tree spot name meant }
{}

/// The number of a CONST that is not an array, of a module or of a routine, has a place among the kept values. It is
/// the number of a declaration of the name that is visible there. Its row is that of the declaration, and so is the
/// value that is kept for it once the data of the modules are checked.
pub fn constants_have_their_places()
    ensures places { (modules : List PlainModule) (signals : List SignalRow) (axes : ℕ) (names : Names) → names_of modules signals axes ≡ Ok names → (spot : Spot) (name : List ℕ) (k : ℕ) → meaning (tables_of modules signals) spot name ≡ Some (meants.Const k) → (k < length names.kept) × (k < length names.rows.consts) }
    ensures which { (modules : List PlainModule) (tasks : List (List ℕ)) (signals : List SignalRow) (axes : ℕ) (tree : TypedTree) (names : Names) (p : Progress) → task_of modules tasks signals axes ≡ Ok tree → names_of modules signals axes ≡ Ok names → data_of 0 modules (beginning names) ≡ Ok p → (spot : Spot) (name : List ℕ) (k : ℕ) → meaning (tables_of modules signals) spot name ≡ Some (meants.Const k) → IsConst modules signals tree p.names spot name k }
{}

/// If a VAR is a meeting, its row in the tree is that of a syncident, and the tree's meeting with the number that is
/// counted there has its name.
pub fn meetings_have_their_names()
    ensures { (modules : List PlainModule) (tasks : List (List ℕ)) (signals : List SignalRow) (axes : ℕ) (tree : TypedTree) (names : Names) → names_of modules signals axes ≡ Ok names → task_of modules tasks signals axes ≡ Ok tree → (k : ℕ) → is_meeting (slice_get names.rows.slots k) ≡ true → IsMeeting tree.slots tree.meetings names.rows.slots k }
{}

/// Each GOTO of a checked routine goes to a label in its own list or in an enclosing one. If the labels of the routines
/// are at different bytes, as in every text, the labels of a routine all differ, and are numbered in text order.
pub fn jumps_have_one_label()
    ensures lands { (modules : List PlainModule) (tasks : List (List ℕ)) (signals : List SignalRow) (axes : ℕ) (tree : TypedTree) → task_of modules tasks signals axes ≡ Ok tree → (routine : ℕ) (t : TypedRoutine) → slice_get tree.routines routine ≡ Some t → JumpsLand t }
    ensures once { (modules : List PlainModule) (tasks : List (List ℕ)) (signals : List SignalRow) (axes : ℕ) (tree : TypedTree) → task_of modules tasks signals axes ≡ Ok tree → ((number : ℕ) (r : PlainRoutine) → StandsIn modules number (Routine r) → LabelsApart r) → (routine : ℕ) (t : TypedRoutine) → slice_get tree.routines routine ≡ Some t → AreApart (numbers_in_routine t) }
    ensures in_text_order { (modules : List PlainModule) (tasks : List (List ℕ)) (signals : List SignalRow) (axes : ℕ) (tree : TypedTree) → task_of modules tasks signals axes ≡ Ok tree → ((number : ℕ) (r : PlainRoutine) → StandsIn modules number (Routine r) → LabelsApart r) → (routine : ℕ) (t : TypedRoutine) → slice_get tree.routines routine ≡ Some t → AreInOrder (numbers_in_routine t) }
{}
