//! Which typed tree the modules of a task have, and that checking gives exactly this one.

ghost use Rattle.std.specs.Prelude.{◌≡◌, ℕ, Bool, List, Ok, ◌↔◌};
ghost use Rattle.raw_trees.specs.Plain.{PlainModule};
ghost use Rattle.rapid_model.specs.declared.signal_row.SignalRow.{SignalRow};
ghost use Rattle.typed_trees.specs.Plain.{TypedTree};
ghost use Rattle.task_types.specs.Task.{task_of};
ghost use Rattle.type_laws.specs.Tasks.{IsTyped};

/// Checking the modules of a task gives a tree exactly if it is their typed tree.
pub fn tasks_are_typed()
    ensures { (modules : List PlainModule) (tasks : List (List ℕ)) (signals : List SignalRow) (axes : ℕ) (tree : TypedTree) → (task_of modules tasks signals axes ≡ Ok tree) ↔ IsTyped modules tasks signals axes tree }
{}

/// The modules of a task have at most one typed tree.
pub fn tasks_have_one_tree()
    ensures { (modules : List PlainModule) (tasks : List (List ℕ)) (signals : List SignalRow) (axes : ℕ) (tree other : TypedTree) → IsTyped modules tasks signals axes tree → IsTyped modules tasks signals axes other → tree ≡ other }
{}
