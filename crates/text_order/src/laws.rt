ghost use Rattle.std.specs.Prelude.{◌≡◌, ℕ, Bool, List, Ok, Some, map, slice_get};
ghost use Rattle.raw_trees.specs.Plain.{PlainModule};
ghost use Rattle.module_parser.specs.Modules.{SpellsWithin};
ghost use Rattle.rapid_model.specs.declared.signal_row.SignalRow.{SignalRow};
ghost use Rattle.typed_trees.specs.Plain.{TypedRoutine, TypedTree};
ghost use Rattle.typed_trees.specs.Labels.{numbers_in_routine};
ghost use Rattle.task_types.specs.Task.{task_of};
ghost use Rattle.name_laws.specs.Jumps.{AreApart, AreInOrder, JumpsLand};
ghost use Rattle.text_order.specs.Stated.{AreAscending, byte_of, stated_in_module};
ghost use Rattle.text_order.specs.Texts.{AreSpelled};

/// The statements of a module that a text spells are at ascending bytes, a statement before those of its lists.
pub fn statements_stand_in_order()
    ensures { (levels : ℕ) (m : PlainModule) (source : List ℕ) → SpellsWithin levels m source → AreAscending (map byte_of (stated_in_module m)) }
{}

/// In an accepted task whose modules texts spell, each GOTO goes to a label of its own list or of an enclosing one; the
/// labels of a routine all differ, and are numbered in text order.
pub fn accepted_jumps_have_one_label()
    ensures lands { (levels : ℕ) (modules : List PlainModule) (tasks : List (List ℕ)) (signals : List SignalRow) (axes : ℕ) (tree : TypedTree) → AreSpelled levels modules → task_of modules tasks signals axes ≡ Ok tree → (routine : ℕ) (t : TypedRoutine) → slice_get tree.routines routine ≡ Some t → JumpsLand t }
    ensures once { (levels : ℕ) (modules : List PlainModule) (tasks : List (List ℕ)) (signals : List SignalRow) (axes : ℕ) (tree : TypedTree) → AreSpelled levels modules → task_of modules tasks signals axes ≡ Ok tree → (routine : ℕ) (t : TypedRoutine) → slice_get tree.routines routine ≡ Some t → AreApart (numbers_in_routine t) }
    ensures in_text_order { (levels : ℕ) (modules : List PlainModule) (tasks : List (List ℕ)) (signals : List SignalRow) (axes : ℕ) (tree : TypedTree) → AreSpelled levels modules → task_of modules tasks signals axes ≡ Ok tree → (routine : ℕ) (t : TypedRoutine) → slice_get tree.routines routine ≡ Some t → AreInOrder (numbers_in_routine t) }
{}
